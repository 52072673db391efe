ghost use Rattle.std.specs.Prelude.{◌≡◌, ◌↔◌, [], IsTrue, IfOk, OnErr, false};
ghost use Rattle.indexmap.specs.IndexSet.{remove_key};
ghost use Rattle.wat_locks.specs.Order.{resource_eq};
ghost use Rattle.wat_locks.specs.Tables.{IsHolderBefore, is_freed_by, PutsResource};

use crate::lock::{LockKind, Resource};
use indexmap::IndexSet;
use std::alloc::Global;
use wat_list::NoMemory;

/// Who holds locks, of which kind, and for which scan where they are short.
#[derive(Clone, Copy, Debug)]
pub struct Holder {
    pub conn: u16,
    pub kind: LockKind,
    pub short: Option<u32>,
}

/// The resources that a holder has locks on.
#[derive(Debug, Drop)]
pub struct Table {
    pub by: Holder,
    pub resources: IndexSet<Resource>,
}

impl Holder {
    pub fn is_same(self, other: Holder) -> bool
        ensures { IsTrue result ↔ (self ≡ other) }
    {
        self.conn == other.conn
            && self.kind.rank() == other.kind.rank()
            && self.short == other.short
    }

    /// The lesser connection first, and of one connection Read before Write.
    pub fn is_named_before(self, other: Holder) -> bool
        ensures yes { IsTrue result → IsHolderBefore self other }
        ensures no { result ≡ false → IsHolderBefore other self }
    {
        self.conn < other.conn || (self.conn == other.conn && self.kind.rank() < other.kind.rank())
    }

    /// Whether it is the connection's, and where a scan is given short for it.
    pub fn is_freed(self, conn: u16, scan: Option<u32>) -> bool
        ensures { result ≡ is_freed_by conn scan self }
    {
        if self.conn != conn {
            return false;
        }
        match scan {
            None => true,
            Some(scan) => match self.short {
                None => false,
                Some(other) => other == scan,
            },
        }
    }
}

impl Table {
    pub fn new(alloc: Global, by: Holder) -> Self
        ensures by { result.by ≡ by }
        ensures empty { result.resources.keys ≡ [] }
    {
        Table {
            by,
            resources: IndexSet::new(alloc),
        }
    }

    /// Adds the resource, and tells whether it is new.
    pub fn put(&mut self, resource: Resource) -> Result<bool, NoMemory>
        ensures by { self.new.by ≡ self.old.by }
        ensures ok { IfOk result (PutsResource self.old self.new resource) }
        ensures err { OnErr result (self.new.resources.keys ≡ self.old.resources.keys) }
    {
        let fresh = self.resources.insert(resource)?;
        Ok(fresh)
    }

    /// Takes the resource out.
    pub fn take(&mut self, resource: &Resource)
        ensures by { self.new.by ≡ self.old.by }
        ensures keys { self.new.resources.keys ≡ remove_key (resource_eq resource.now) self.old.resources.keys }
    {
        self.resources.shift_remove(resource);
    }
}

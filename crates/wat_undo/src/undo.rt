ghost use Rattle.std.specs.Prelude.{◌≡◌, ◌≢◌, ◌<◌, ◌≤◌, ◌^◌, ◌++◌, ◌∷◌, [], ℕ, List, Some, length, slice_get, MatchOption, ◌↔◌, IsTrue, IfOk, IfSome, IfNone, OnOk, OnErr};
ghost use Rattle.std.specs.List.{flat_map, AllByRecursion};
ghost use Rattle.std.specs.Map.{keys_of};
ghost use Rattle.wat_log_record.specs.Encoding.{IsWritableChange};
ghost use Rattle.wat_log_record.specs.Reading.{BeginsNone};
ghost use Rattle.wat_replay.specs.State.{Lists, with_list};
ghost use Rattle.wat_recover.specs.Goes.{Popped};
ghost use Rattle.wat_recover.specs.Listed.{IsLeastFrom};
ghost use Rattle.wat_undo.specs.Kept.{lists_of, IsOpen};
ghost use Rattle.wat_undo.specs.Payload.{entry_bytes, payload_of, AreEntries, AreAscending, BeginsLists, SpellsLists};

use crate::lists::{Changes, least_from, pop_from, push_to};
use crate::reading::read_entry;
use crate::writing::push_entry;
use std::alloc::Global;
use std::collections::BTreeMap;
use std::marker::Model;
use wat_list::{NoMemory, item};
use wat_record::{push_count, read_count};
use wat_value::Change;

/// The changes of each connection that stand. Contracts see the connections that have some, in ascending order, each with
/// its changes. To add one, to take one off, to count them or to find the next connection costs a logarithm.
#[derive(Drop)]
pub struct Undo {
    alloc: Global,
    lists: BTreeMap<u16, Changes>,
}

impl Model for Undo {
    ghost use Rattle.std.specs.Prelude.{List, ℕ};
    ghost use Rattle.wat_value.specs.declared.change.Change.{Change as AnyChange};
    ghost use Rattle.wat_undo.specs.Kept.{AreOpen};

    ghost Value = { List (ℕ × List AnyChange) };

    ghost view = { λ u. u.lists.entries };

    ghost invariant = { λ u. AreOpen u.lists.entries };
}

impl Undo {
    /// No changes.
    pub fn new(alloc: Global) -> Self
        ensures { result ≡ [] }
    {
        Undo {
            alloc,
            lists: BTreeMap::new(alloc),
        }
    }

    /// How many connections have changes.
    pub fn len(&self) -> usize
        ensures { result ≡ length self.now }
    {
        self.lists.len()
    }

    /// Whether no connection has changes.
    pub fn is_empty(&self) -> bool
        ensures { IsTrue result ↔ (self.now ≡ []) }
    {
        self.lists.len() == 0
    }

    /// Puts a connection with changes behind all others.
    fn append(&mut self, conn: u16, changes: Changes) -> Result<(), NoMemory>
        requires open { IsOpen (conn, changes) }
        requires last { AllByRecursion (λ k. k < conn) (keys_of self.old) }
        ensures { OnOk result (self.new ≡ self.old ++ (conn, changes) ∷ []) }
    {
        self.lists.insert(conn, changes)?;
        Ok(())
    }

    pub(crate) fn allocator(&self) -> Global {
        self.alloc
    }

    /// The payload of the chain: no bytes where no connection has changes. Fewer than 65,536 connections have some.
    pub(crate) fn payload(&self) -> Result<Vec<u8>, NoMemory>
        requires { length self.now < 2 ^ 16 }
        ensures bytes { IfOk result (λ payload. payload.items ≡ payload_of self.now) }
        ensures entries { OnOk result (AreEntries self.now) }
    {
        let mut out = Vec::new(self.alloc);
        if self.lists.is_empty() {
            return Ok(out);
        }
        push_count(self.lists.len() as u16, &mut out)?;
        for (conn, changes) in &self.lists {
            push_entry(*conn, changes, &mut out)?;
        }
        Ok(out)
    }

    /// The lists of that many connections, and the rest of the bytes.
    fn read(alloc: Global, count: u16, bytes: &[u8]) -> Result<Option<(Undo, &[u8])>, NoMemory>
        ensures { IfOk result (λ o. MatchOption o (BeginsNone (flat_map entry_bytes) (AreAscending count) bytes.now) (λ x. BeginsLists count bytes.now (lists_of x.0) x.1.now)) }
    {
        let mut undo = Undo::new(alloc);
        let mut rest = bytes;
        let mut next: u32 = 0;
        for _i in 0..count {
            match read_entry(alloc, rest)? {
                Some(((conn, changes), behind)) => {
                    if u32::from(conn) < next {
                        return Ok(None);
                    }
                    if !changes.is_empty() {
                        undo.append(conn, changes)?;
                    }
                    next = u32::from(conn) + 1;
                    rest = behind;
                }
                None => return Ok(None),
            }
        }
        Ok(Some((undo, rest)))
    }

    /// The lists that a payload spells; `None` exactly where it spells none.
    pub fn from_payload(alloc: Global, payload: &[u8]) -> Result<Option<Undo>, NoMemory>
        ensures some { IfOk result (λ o. IfSome o (λ undo. SpellsLists payload.now (lists_of undo))) }
        ensures none { IfOk result (λ o. IfNone o ((lists : Lists) → SpellsLists payload.now lists → ⊥)) }
    {
        let Some((count, rest)) = read_count(payload) else {
            return Ok(None);
        };
        match Undo::read(alloc, count, rest)? {
            Some((undo, rest)) => {
                if rest.is_empty() {
                    Ok(Some(undo))
                } else {
                    Ok(None)
                }
            }
            None => Ok(None),
        }
    }

    /// Adds a change at the end of the connection's list. Where the connection has 4,294,967,295 changes, memory is wanted.
    /// Each row of the change has fewer than 65,536 values, and each of its texts fewer than 65,536 bytes.
    pub fn push(&mut self, conn: u16, change: Change) -> Result<(), NoMemory>
        requires { IsWritableChange change }
        ensures pushed { OnOk result (lists_of self.new ≡ with_list conn (lists_of self.old conn ++ change ∷ []) (lists_of self.old)) }
        ensures kept { OnErr result (lists_of self.new ≡ lists_of self.old) }
    {
        push_to(self.alloc, &mut self.lists, conn, change)
    }

    /// Takes the last change off the connection's list; `None` where the list is empty.
    pub fn pop(&mut self, conn: u16) -> Option<Change>
        ensures { MatchOption result ((lists_of self.old conn ≡ []) × (self.new ≡ self.old)) (λ change. Popped conn change (lists_of self.old) (lists_of self.new)) }
    {
        pop_from(&mut self.lists, conn)
    }

    /// How many changes the connection's list has.
    pub fn count(&self, conn: u16) -> u32
        ensures { result ≡ length (lists_of self.now conn) }
    {
        match self.lists.get(&conn) {
            Some(list) => list.len() as u32,
            None => 0,
        }
    }

    /// The change at a place of the connection's list, the oldest at 0.
    pub fn change(&self, conn: u16, i: u32) -> &Change
        requires { i < length (lists_of self.now conn) }
        ensures { slice_get (lists_of self.now conn) i ≡ Some result.now }
    {
        match self.lists.get(&conn) {
            Some(list) => item(list, i as usize),
            None => unreachable!(),
        }
    }

    /// The least connection from that number on whose list is not empty.
    pub fn next_open(&self, from: u32) -> Option<u16>
        ensures { IsLeastFrom from (lists_of self.now) result }
    {
        least_from(&self.lists, from)
    }
}

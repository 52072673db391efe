ghost use Rattle.std.specs.Prelude.{◌≡◌, ◌↔◌, ◌==◌, ◌&&◌, [], not, None, Some, IsTrue, IfOk, OnOk, OnErr};
ghost use Rattle.std.specs.List.{filter};
ghost use Rattle.wat_list.specs.Has.{Has, HasSame};
ghost use Rattle.wat_locks.specs.declared.held.Held.{Held};
ghost use Rattle.wat_locks.specs.declared.want.Want.{Want};
ghost use Rattle.wat_locks.specs.Held.{Adds, Answers, AreFree, Compatible, Frees, Holds, entry};
ghost use Rattle.wat_steps.specs.Answering.{without_short};
ghost use Rattle.wat_statement_locks.specs.Visiting.{AnswersVisit};

use crate::freeing::{free_all, free_below, free_scan};
use crate::scans::{above, any_short};
use std::alloc::Global;
use std::marker::Model;
use wat_list::NoMemory;
use wat_locks::{Asked, Lock, Locks, Wants};

/// The locks of all connections. Contracts see a list; its order means nothing.
///
/// After want of memory it is not used again.
#[derive(Debug, Drop)]
pub struct StatementLocks {
    locks: Locks,
    /// The scans that have short locks have numbers below this one.
    scans: u64,
}

impl Model for StatementLocks {
    ghost use Rattle.std.specs.Prelude.{List, ◌≤◌, ◌^◌};
    ghost use Rattle.wat_locks.specs.declared.held.Held.{Held};
    ghost use Rattle.wat_locks.specs.Held.{Compatible};
    ghost use Rattle.wat_statement_locks.specs.Scans.{AreBelow};

    ghost Value = { List Held };

    ghost view = { λ l. l.locks };

    ghost invariant = { λ l. (l.scans ≤ 2 ^ 32) × AreBelow l.scans l.locks × Compatible l.locks };
}

impl StatementLocks {
    pub fn new(alloc: Global) -> Self
        ensures { result ≡ [] }
    {
        StatementLocks {
            locks: Locks::new(alloc),
            scans: 0,
        }
    }

    /// Gives the connection all that it wants, or tells what is in its way and changes nothing.
    pub fn ask(&mut self, alloc: Global, conn: u16, wants: &Wants) -> Result<Asked, NoMemory>
        ensures answers { IfOk result (λ asked. Answers self.old self.new conn wants.now asked) }
        ensures err { OnErr result (HasSame self.new self.old) }
        ensures compatible { Compatible self.new }
    {
        self.scans = self.scans.max(above(wants.as_slice()));
        self.locks.ask(alloc, conn, wants)
    }

    fn free_scan(&mut self, conn: u16, scan: u32)
        ensures frees { Frees self.old self.new (λ h. (h.conn ≡ conn) × (h.short ≡ Some scan)) }
        ensures compatible { Compatible self.new }
    {
        free_scan(&mut self.locks, conn, scan);
    }

    /// Gives the connection once more what it wants, where only its short locks may have gone.
    fn regain(&mut self, alloc: Global, conn: u16, wants: &Wants) -> Result<(), NoMemory>
        requires free { AreFree self.old conn wants.now }
        requires stand { (w : Want) → Has w wants.now → w.short ≡ None → Has (entry conn w) self.old }
        requires compatible { Compatible self.old }
        ensures adds { OnOk result (Adds self.old self.new conn wants.now) }
        ensures compatible { Compatible self.new }
    {
        if !any_short(wants.as_slice()) {
            return Ok(());
        }
        match self.ask(alloc, conn, wants)? {
            Asked::Granted => Ok(()),
            Asked::Against(_) => unreachable!(),
        }
    }

    /// Gives the connection all that a visit of the scan wants, and frees the short locks of the scan's earlier visits; or
    /// tells what is in its way and changes nothing.
    pub fn ask_for_visit(
        &mut self,
        alloc: Global,
        conn: u16,
        scan: u32,
        wants: &Wants,
    ) -> Result<Asked, NoMemory>
        ensures answers { IfOk result (λ asked. AnswersVisit self.old self.new conn scan wants.now asked) }
        ensures compatible { Compatible self.new }
    {
        match self.ask(alloc, conn, wants)? {
            Asked::Against(against) => Ok(Asked::Against(against)),
            Asked::Granted => {
                self.free_scan(conn, scan);
                self.regain(alloc, conn, wants)?;
                Ok(Asked::Granted)
            }
        }
    }

    /// Whether the connection has the lock, long or short.
    pub fn holds(&self, conn: u16, lock: &Lock) -> bool
        ensures { IsTrue result ↔ Holds self.now conn lock.now }
    {
        self.locks.holds(conn, lock)
    }

    /// The connection's statement is answered: its short locks go.
    pub fn end_statement(&mut self, conn: u16)
        ensures freed { HasSame self.new (without_short conn self.old) }
        ensures compatible { Compatible self.new }
    {
        free_below(&mut self.locks, conn, self.scans);
    }

    /// The connection's transaction is over: its locks go.
    pub fn end_transaction(&mut self, conn: u16)
        ensures freed { HasSame self.new (filter (λ (h : Held). not (h.conn == conn)) self.old) }
        ensures compatible { Compatible self.new }
    {
        free_all(&mut self.locks, conn);
    }

    /// The locks alone.
    pub fn as_locks(&self) -> &Locks
        ensures { result.now ≡ self.now }
    {
        &self.locks
    }
}

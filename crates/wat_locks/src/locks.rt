ghost use Rattle.std.specs.Prelude.{◌≡◌, ◌↔◌, ◌+◌, ◌==◌, ◌&&◌, ◌≤◌, [], drop, length, count_by, filter, not, true, Bool, IsTrue, IfOk, OnOk, OnErr, Some, MatchOption};
ghost use Rattle.wat_list.specs.Has.{Has, HasSame};
ghost use Rattle.wat_locks.specs.Held.{AreFree, Named, Adds, Frees, entry, held_of, is_for};
ghost use Rattle.wat_locks.specs.Tables.{all_held, holders, held_by, is_freed, AreTables, IsAt, Puts, FreesIf};

use crate::find::{all_free_or_named, are_free_or_named, is_holding};
use crate::held::{Against, Asked};
use crate::lock::Lock;
use crate::table::{Holder, Table};
use crate::want::{Want, Wants};
use std::alloc::Global;
use std::marker::Model;
use std::sync::ledger::Ledger;
use wat_chain::Steps;
use wat_list::{Copied, NoMemory};

/// The locks of all connections. Contracts see a list in which each entry stands once; its order
/// means nothing.
///
/// There is one table for each connection, kind and scan with short locks. So a look-up costs one
/// search by hash in each table, and a release the connection's own locks, whatever the others hold.
#[derive(Debug, Drop)]
pub struct Locks {
    tables: Vec<Table>,
}

impl Model for Locks {
    ghost use Rattle.std.specs.Prelude.{List};
    ghost use Rattle.wat_locks.specs.declared.held.Held.{Held};
    ghost use Rattle.wat_locks.specs.Held.{Compatible};
    ghost use Rattle.wat_locks.specs.Tables.{all_held, AreTables};

    ghost Value = { List Held };

    ghost view = { λ locks. all_held locks.tables.items };

    ghost invariant = { λ locks. Compatible (all_held locks.tables.items) × AreTables locks.tables.items };
}

impl Locks {
    ghost use Rattle.wat_locks.specs.Held.{Compatible, Holds, Answers};

    pub fn new(alloc: Global) -> Locks
        ensures { result ≡ [] }
    {
        Locks {
            tables: Vec::new(alloc),
        }
    }

    /// Gives the connection all that it wants, or tells what is in its way and changes nothing.
    pub fn ask(&mut self, alloc: Global, conn: u16, wants: &Wants) -> Result<Asked, NoMemory>
        ensures answers { IfOk result (λ asked. Answers self.old self.new conn wants.now asked) }
        ensures err { OnErr result (HasSame self.new self.old) }
        ensures compatible { Compatible self.new }
    {
        match all_free_or_named(alloc, self.tables.as_slice(), conn, wants.as_slice())? {
            Some(against) => Ok(Asked::Against(against)),
            None => {
                add(alloc, &mut self.tables, conn, wants.as_slice(), 0)?;
                Ok(Asked::Granted)
            }
        }
    }

    /// Whether the connection has the lock, long or short.
    pub fn holds(&self, conn: u16, lock: &Lock) -> bool
        ensures { IsTrue result ↔ Holds self.now conn lock.now }
    {
        is_holding(self.tables.as_slice(), conn, lock)
    }

    /// The conflict that is named where this holder alone holds locks.
    pub fn against(
        &self,
        alloc: Global,
        holder: u16,
        conn: u16,
        wants: &Wants,
    ) -> Result<Option<Against>, NoMemory>
        ensures { IfOk result (λ found. MatchOption found (AreFree (held_of holder self.now) conn wants.now) (Named (held_of holder self.now) conn wants.now)) }
    {
        are_free_or_named(
            alloc,
            self.tables.as_slice(),
            Some(holder),
            conn,
            wants.as_slice(),
        )
    }

    /// Frees all locks of the connection, with one step for each.
    pub fn release_all<L: Ledger>(&mut self, conn: u16, steps: &mut Steps<L>)
        ensures frees { Frees self.old self.new (λ h. h.conn ≡ conn) }
        ensures ticks { steps.new ≡ steps.old + count_by (λ h. h.conn == conn) self.old }
        ensures compatible { Compatible self.new }
    {
        take_out(&mut self.tables, conn, None, steps);
    }

    /// Frees the connection's short locks of one scan, with one step for each.
    pub fn release_short<L: Ledger>(&mut self, conn: u16, scan: u32, steps: &mut Steps<L>)
        ensures frees { Frees self.old self.new (λ h. (h.conn ≡ conn) × (h.short ≡ Some scan)) }
        ensures ticks { steps.new ≡ steps.old + count_by (λ h. h.conn == conn && is_for scan h.short) self.old }
        ensures compatible { Compatible self.new }
    {
        take_out(&mut self.tables, conn, Some(scan), steps);
    }
}

/// Takes those tables out and leaves the others in their order, with a step for each lock.
fn take_out<L: Ledger>(tables: &mut Vec<Table>, conn: u16, scan: Option<u32>, steps: &mut Steps<L>)
    requires { AreTables tables.old.items }
    ensures kept { all_held tables.new.items ≡ filter (λ h. not (is_freed conn scan h)) (all_held tables.old.items) }
    ensures ticks { steps.new ≡ steps.old + count_by (is_freed conn scan) (all_held tables.old.items) }
    ensures tables { AreTables tables.new.items }
{
    let mut i = 0;
    while i < tables.len() {
        if tables[i].by.is_freed(conn, scan) {
            let table = tables.remove(i);
            tick_each(table.resources.len(), steps);
        } else {
            i += 1;
        }
    }
}

/// One step for each of n.
fn tick_each<L: Ledger>(n: usize, steps: &mut Steps<L>)
    ensures { steps.new ≡ steps.old + n }
{
    for _ in 0..n {
        steps.tick();
    }
}

/// Adds the connection's entries for the wants from `i` on that do not stand already, or changes
/// nothing.
fn add(
    alloc: Global,
    tables: &mut Vec<Table>,
    conn: u16,
    wants: &[Want],
    i: usize,
) -> Result<(), NoMemory>
    requires within { i ≤ length wants.now }
    requires tables { AreTables tables.old.items }
    ensures ok { OnOk result (Adds (all_held tables.old.items) (all_held tables.new.items) conn (drop i wants.now)) }
    ensures err { OnErr result (HasSame (all_held tables.new.items) (all_held tables.old.items)) }
    ensures tables { AreTables tables.new.items }
{
    if i == wants.len() {
        return Ok(());
    }
    let fresh = put(alloc, tables, conn, &wants[i])?;
    match add(alloc, tables, conn, wants, i + 1) {
        Ok(()) => Ok(()),
        Err(error) => {
            take_back(tables, conn, &wants[i], fresh);
            Err(error)
        }
    }
}

fn holder_of(conn: u16, want: &Want) -> Holder
    ensures { held_by result want.now.lock.resource ≡ entry conn want.now }
{
    Holder {
        conn,
        kind: want.lock.kind,
        short: want.short,
    }
}

/// Adds the connection's entry for the want, and tells whether it is new.
fn put(alloc: Global, tables: &mut Vec<Table>, conn: u16, want: &Want) -> Result<bool, NoMemory>
    requires { AreTables tables.old.items }
    ensures ok { IfOk result (Puts (all_held tables.old.items) (all_held tables.new.items) (entry conn want.now)) }
    ensures err { OnErr result (HasSame (all_held tables.new.items) (all_held tables.old.items)) }
    ensures tables { AreTables tables.new.items }
{
    let i = table_for(alloc, tables, holder_of(conn, want))?;
    let resource = want.lock.resource.copy(alloc)?;
    let fresh = tables[i].put(resource)?;
    Ok(fresh)
}

/// Takes out the connection's entry for the want where it was new.
fn take_back(tables: &mut Vec<Table>, conn: u16, want: &Want, fresh: bool)
    requires tables { AreTables tables.old.items }
    requires there { fresh ≡ true → Has (entry conn want.now) (all_held tables.old.items) }
    ensures frees { FreesIf fresh (all_held tables.old.items) (all_held tables.new.items) (entry conn want.now) }
    ensures tables { AreTables tables.new.items }
{
    if !fresh {
        return;
    }
    match place_of(tables.as_slice(), holder_of(conn, want)) {
        Some(i) => tables[i].take(&want.lock.resource),
        None => unreachable!(),
    }
}

/// The place of the holder's table.
fn place_of(tables: &[Table], by: Holder) -> Option<usize>
    ensures { MatchOption result (Has by (holders tables.now) → ⊥) (λ i. IsAt tables.now i by) }
{
    for i in 0..tables.len() {
        if tables[i].by.is_same(by) {
            return Some(i);
        }
    }
    None
}

/// The place of the holder's table, which is made where there is none.
fn table_for(alloc: Global, tables: &mut Vec<Table>, by: Holder) -> Result<usize, NoMemory>
    requires { AreTables tables.old.items }
    ensures at { IfOk result (λ i. IsAt tables.new.items i by) }
    ensures same { all_held tables.new.items ≡ all_held tables.old.items }
    ensures tables { AreTables tables.new.items }
{
    match place_of(tables.as_slice(), by) {
        Some(i) => Ok(i),
        None => {
            let i = tables.len();
            tables.push(Table::new(alloc, by))?;
            Ok(i)
        }
    }
}

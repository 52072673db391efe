ghost use Rattle.std.specs.Prelude.{◌≡◌, ◌≤◌, ◌<◌, length, IfOk};
ghost use Rattle.wat_locks.specs.declared.held.Against.{Against as Blocker};
ghost use Rattle.wat_locks.specs.Held.{Compatible};
ghost use Rattle.wat_cycle.specs.Walk.{IsCycle};
ghost use Rattle.wat_cycle.specs.Waits.{AreNamedEdges, Blocks};
ghost use Rattle.wat_steps.specs.State.{CoreState};
ghost use Rattle.wat_core.specs.Parts.{HasParts, requests_in};
ghost use Rattle.wat_core.specs.Telling.{AnswersFor, IsTold, IsWaiting, TellsBlocked};

use crate::waiting::requests;
use std::alloc::Global;
use wat_connection::Connection;
use wat_cycle::{Edges, cycle};
use wat_list::NoMemory;
use wat_locks::{Against, Asked, Wants};
use wat_statement_locks::StatementLocks;

/// What a connection is told that asks for locks.
#[derive(Debug, Drop)]
pub enum Told {
    /// It has all that it wants.
    Granted,
    /// Another connection holds this lock, and it is not to wait.
    Locked(Against),
    /// Another connection holds this lock, and it waits.
    Waiting(Against),
    /// To wait would close this cycle.
    Deadlock(Edges),
}

fn ask_locks(
    alloc: Global,
    locks: &mut StatementLocks,
    conn: u16,
    scan: Option<u32>,
    wants: &Wants,
) -> Result<Asked, NoMemory>
    ensures answers { IfOk result (λ asked. AnswersFor locks.old locks.new conn scan wants.now asked) }
    ensures compatible { Compatible locks.new }
{
    match scan {
        Some(scan) => locks.ask_for_visit(alloc, conn, scan, wants),
        None => locks.ask(alloc, conn, wants),
    }
}

/// What the connection is told that has begun to wait, where this lock is in its way.
fn told_waiting(
    alloc: Global,
    locks: &StatementLocks,
    connections: &[Connection],
    conn: u16,
    against: Against,
) -> Result<Told, NoMemory>
    requires { length connections.now < 65536 }
    ensures { IfOk result (IsWaiting locks.now (requests_in connections.now) conn against) }
{
    let waiting = requests(alloc, connections)?;
    match cycle(alloc, conn, locks.as_locks(), &waiting)? {
        Some(edges) => Ok(Told::Deadlock(edges)),
        None => Ok(Told::Waiting(against)),
    }
}

/// What the connection is told where this lock is in its way. Where it may wait, it keeps its request.
fn blocked(
    alloc: Global,
    locks: &StatementLocks,
    connections: &mut Vec<Connection>,
    conn: u16,
    wants: Wants,
    against: Against,
) -> Result<Told, NoMemory>
    requires from_one { 1 ≤ conn }
    requires within { conn ≤ length connections.old.items }
    requires few { length connections.old.items < 65536 }
    ensures told { IfOk result (TellsBlocked locks.now connections.old.items connections.new.items conn wants against) }
    ensures same { length connections.new.items ≡ length connections.old.items }
{
    let at = conn as usize - 1;
    if !connections[at].is_blocking() {
        return Ok(Told::Locked(against));
    }
    connections[at].wait(wants);
    told_waiting(alloc, locks, connections.as_slice(), conn, against)
}

/// Gives the connection all that it wants, for a visit of the scan or for a change; or tells why not. Where it waits, or would
/// close a cycle if it did, it keeps its request.
///
/// After want of memory locks and connections are not used again.
pub fn ask(
    alloc: Global,
    locks: &mut StatementLocks,
    connections: &mut Vec<Connection>,
    conn: u16,
    scan: Option<u32>,
    wants: Wants,
) -> Result<Told, NoMemory>
    requires from_one { 1 ≤ conn }
    requires within { conn ≤ length connections.old.items }
    requires few { length connections.old.items < 65536 }
    ensures told { (e : CoreState) → HasParts e connections.old.items locks.old → IfOk result (λ told. IsTold e conn scan wants told connections.new.items locks.new) }
    ensures same { length connections.new.items ≡ length connections.old.items }
    ensures compatible { Compatible locks.new }
{
    match ask_locks(alloc, locks, conn, scan, &wants)? {
        Asked::Granted => Ok(Told::Granted),
        Asked::Against(against) => blocked(alloc, locks, connections, conn, wants, against),
    }
}

ghost use Rattle.std.specs.Prelude.{◌≡◌, ◌++◌, IfOk, MatchOption, List, filter};
ghost use Rattle.wat_locks.specs.declared.held.Held.{Held};
ghost use Rattle.wat_locks.specs.Held.{AreFree, Named};
ghost use Rattle.wat_locks.specs.Tables.{held_in, all_held, is_of, is_in_the_way, is_lock_of, IsNamedBy};
ghost use Rattle.std.specs.List.{list_any};

use crate::held::Against;
use crate::lock::Lock;
use crate::table::{Holder, Table};
use crate::want::Want;
use std::alloc::Global;
use wat_list::{Copied, NoMemory};

/// Whether the connection is that one, where one is given.
fn is_of(only: Option<u16>, conn: u16) -> bool
    ensures { result ≡ is_of only conn }
{
    match only {
        None => true,
        Some(only) => conn == only,
    }
}

/// Whether the table has another connection's lock in conflict with this one.
fn is_in_the_way(only: Option<u16>, conn: u16, lock: &Lock, table: &Table) -> bool
    ensures { result ≡ is_in_the_way only conn lock.now table.now }
{
    is_of(only, table.by.conn)
        && table.by.conn != conn
        && lock.kind.excludes(table.by.kind)
        && table.resources.contains(&lock.resource)
}

/// Which is named, of the one that was so far and the next table's.
fn nearer(
    only: Option<u16>,
    conn: u16,
    lock: &Lock,
    best: Option<Holder>,
    next: &Table,
) -> Option<Holder>
    ensures { (held : List Held) → IsNamedBy held conn lock.now best → IsNamedBy (held ++ filter (λ h. is_of only h.conn) (held_in next.now)) conn lock.now result }
{
    if !is_in_the_way(only, conn, lock, next) {
        return best;
    }
    match best {
        None => Some(next.by),
        Some(least) => {
            if least.is_named_before(next.by) {
                best
            } else {
                Some(next.by)
            }
        }
    }
}

/// The holder that is named where the lock is not free.
fn least_in_the_way(tables: &[Table], only: Option<u16>, conn: u16, lock: &Lock) -> Option<Holder>
    ensures { IsNamedBy (filter (λ h. is_of only h.conn) (all_held tables.now)) conn lock.now result }
{
    let mut best = None;
    for next in tables {
        best = nearer(only, conn, lock, best, next);
    }
    best
}

/// None where each wanted lock is free, and else the named conflict.
pub fn are_free_or_named(
    alloc: Global,
    tables: &[Table],
    only: Option<u16>,
    conn: u16,
    wants: &[Want],
) -> Result<Option<Against>, NoMemory>
    ensures { IfOk result (λ found. MatchOption found (AreFree (filter (λ h. is_of only h.conn) (all_held tables.now)) conn wants.now) (Named (filter (λ h. is_of only h.conn) (all_held tables.now)) conn wants.now)) }
{
    for want in wants {
        if let Some(least) = least_in_the_way(tables, only, conn, &want.lock) {
            let resource = want.lock.resource.copy(alloc)?;
            return Ok(Some(Against {
                holder: least.conn,
                lock: Lock {
                    kind: least.kind,
                    resource,
                },
            }));
        }
    }
    Ok(None)
}

/// The same among the locks of all connections.
pub fn all_free_or_named(
    alloc: Global,
    tables: &[Table],
    conn: u16,
    wants: &[Want],
) -> Result<Option<Against>, NoMemory>
    ensures { IfOk result (λ found. MatchOption found (AreFree (all_held tables.now) conn wants.now) (Named (all_held tables.now) conn wants.now)) }
{
    are_free_or_named(alloc, tables, None, conn, wants)
}

/// Whether the table has that lock of the connection.
fn is_lock_of(table: &Table, conn: u16, lock: &Lock) -> bool
    ensures { result ≡ is_lock_of conn lock.now table.now }
{
    table.by.conn == conn
        && table.by.kind.rank() == lock.kind.rank()
        && table.resources.contains(&lock.resource)
}

pub fn is_holding(tables: &[Table], conn: u16, lock: &Lock) -> bool
    ensures { result ≡ list_any (is_lock_of conn lock.now) tables.now }
{
    tables.iter().any(|t| is_lock_of(t, conn, lock))
}

ghost use Rattle.std.specs.Prelude.{◌≡◌, ◌↔◌, true, IfOk};
ghost use Rattle.wat_locks.specs.Held.{Holds};
ghost use Rattle.wat_level.specs.Wanted.{phantom_lock};
ghost use Rattle.wat_statement_locks.specs.Inheriting.{AreInheriting, IsInheriting};

use crate::locks::StatementLocks;
use std::alloc::Global;
use wat_level::{Spot, Spots};
use wat_list::{Copied, Items, NoMemory};
use wat_locks::{Lock, LockKind, Resource};
use wat_value::Place;

/// Whether the connection holds Phantom on that place.
fn holds_phantom(
    alloc: Global,
    locks: &StatementLocks,
    conn: u16,
    table: u32,
    index: u8,
    place: &Place,
) -> Result<bool, NoMemory>
    ensures { IfOk result (λ holds. (holds ≡ true) ↔ Holds locks.now conn (phantom_lock table index place.now)) }
{
    let place = place.copy(alloc)?;
    let lock = Lock {
        kind: LockKind::Phantom,
        resource: Resource::Gap {
            table,
            index,
            place,
        },
    };
    Ok(locks.holds(conn, &lock))
}

fn inheriting_one(
    alloc: Global,
    locks: &StatementLocks,
    conn: u16,
    table: u32,
    spot: Spot,
) -> Result<Spot, NoMemory>
    ensures { IfOk result (IsInheriting locks.now conn table spot) }
{
    let inherits = holds_phantom(alloc, locks, conn, table, spot.index, &spot.successor)?;
    let Spot {
        index,
        leaves,
        enters,
        successor,
        inherits: _,
    } = spot;
    Ok(Spot {
        index,
        leaves,
        enters,
        successor,
        inherits,
    })
}

/// The spots of a change of a row of the table, each of which inherits where the connection holds Phantom on its successor.
pub fn inheriting(
    alloc: Global,
    locks: &StatementLocks,
    conn: u16,
    table: u32,
    spots: Spots,
) -> Result<Spots, NoMemory>
    ensures { IfOk result (AreInheriting locks.now conn table spots) }
{
    let mut left = spots;
    let mut after = Items::new(alloc);
    for _i in 0..left.len() {
        let spot = left.remove(0);
        let one = inheriting_one(alloc, locks, conn, table, spot)?;
        after.push(one)?;
    }
    Ok(after)
}

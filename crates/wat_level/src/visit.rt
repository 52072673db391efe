ghost use Rattle.std.specs.Prelude.{◌≡◌, ◌++◌, [], if◌then◌else◌, IfOk, OnOk};
ghost use Rattle.wat_level.specs.Visit.{read_wants, write_wants, row_wants, place_wants, visit_wants};

use crate::wanted::{gap_want, row_want};
use std::alloc::Global;
use wat_list::{Copied, Items, NoMemory};
use wat_locks::{LockKind, Wants};
use wat_value::{Key, Place};

/// A scan at a position of its interval, or at the first one past it.
#[derive(Debug, Drop)]
pub struct Visit {
    pub table: u32,
    pub index: u8,
    pub place: Place,
    /// The primary key in the position's key.
    pub row: Option<Key>,
    /// The place is the first past the interval.
    pub past: bool,
    /// The row is taken in and will be written.
    pub writes: bool,
    /// The number of the scan.
    pub scan: u32,
}

/// What a visit asks at this isolation level, 0 to 3, in the order of locks.
pub fn visit_wants(alloc: Global, level: u8, visit: &Visit) -> Result<Wants, NoMemory>
    ensures { IfOk result (λ wants. wants ≡ visit_wants level visit.now) }
{
    let mut wants = row_wants(alloc, level, visit)?;
    push_place(alloc, &mut wants, level, visit)?;
    Ok(wants)
}

/// On the row of the position.
fn row_wants(alloc: Global, level: u8, visit: &Visit) -> Result<Wants, NoMemory>
    ensures { IfOk result (λ wants. wants ≡ (if visit.now.past then [] else row_wants level visit.now visit.now.row)) }
{
    let mut wants = Items::new(alloc);
    if visit.past {
        return Ok(wants);
    }
    match &visit.row {
        None => Ok(wants),
        Some(key) => {
            push_read(alloc, &mut wants, level, visit, key)?;
            push_write(alloc, &mut wants, visit, key)?;
            Ok(wants)
        }
    }
}

fn push_read(
    alloc: Global,
    wants: &mut Wants,
    level: u8,
    visit: &Visit,
    key: &Key,
) -> Result<(), NoMemory>
    ensures { OnOk result (wants.new ≡ wants.old ++ read_wants level visit.now.scan visit.now.table key.now) }
{
    if level == 0 {
        return Ok(());
    }
    let key = key.copy(alloc)?;
    if level == 1 {
        wants.push(row_want(LockKind::Read, visit.table, key, Some(visit.scan)))
    } else {
        wants.push(row_want(LockKind::Read, visit.table, key, None))
    }
}

fn push_write(alloc: Global, wants: &mut Wants, visit: &Visit, key: &Key) -> Result<(), NoMemory>
    ensures { OnOk result (wants.new ≡ wants.old ++ write_wants visit.now.writes visit.now.table key.now) }
{
    if !visit.writes {
        return Ok(());
    }
    let key = key.copy(alloc)?;
    wants.push(row_want(LockKind::Write, visit.table, key, None))
}

fn push_place(alloc: Global, wants: &mut Wants, level: u8, visit: &Visit) -> Result<(), NoMemory>
    ensures { OnOk result (wants.new ≡ wants.old ++ place_wants level visit.now) }
{
    if level < 3 {
        return Ok(());
    }
    let place = visit.place.copy(alloc)?;
    wants.push(gap_want(LockKind::Phantom, visit.table, visit.index, place))
}

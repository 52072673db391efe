ghost use Rattle.std.specs.Prelude.{◌≡◌, IfOk, OnOk};
ghost use Rattle.wat_value.specs.Changes.{changed_row, changed_table};
ghost use Rattle.wat_level.specs.Wanted.{long_want, write_lock, phantom_lock, anti_phantom_lock};
ghost use Rattle.wat_level.specs.Placed.{placed, placed_all};
ghost use Rattle.wat_level.specs.Change.{left_wants, entered_wants, inherited_wants, spot_wants, change_wants};

use crate::wanted::{gap_want, row_want};
use std::alloc::Global;
use std::cmp::Ordering;
use wat_list::{Copied, Items, NoMemory};
use wat_locks::{LockKind, Want, Wants};
use wat_value::{Change, Key, Place, TableDef};

/// What a change does in one index: the key that it leaves, the key that it comes to, and the
/// first position past that one.
#[derive(Debug, Drop)]
pub struct Spot {
    pub index: u8,
    pub leaves: Option<Key>,
    pub enters: Option<Key>,
    pub successor: Place,
    /// The connection itself holds Phantom on the successor.
    pub inherits: bool,
}

pub type Spots = Items<Spot>;

/// What a change of a row asks, at every level, in the order of locks, each lock once.
///
/// `def` is the definition of the change's table. An INSERT whose row stands already, and an UPDATE
/// that moves no key, have no spots.
#[tactic(auto, using(crate::proofs::ChangeLemmas::spots_step))]
pub fn change_wants(
    alloc: Global,
    def: &TableDef,
    change: &Change,
    spots: &Spots,
) -> Result<Wants, NoMemory>
    ensures { IfOk result (λ wants. wants ≡ change_wants def.now change.now spots.now) }
{
    let table = changed_table(change);
    let key = changed_key(alloc, def, change)?;
    let mut wants = Vec::new(alloc);
    wants.push(row_want(LockKind::Write, table, key, None))?;
    for spot in spots.as_slice() {
        place_spot(alloc, &mut wants, table, spot)?;
    }
    Ok(Items::from_vec(wants))
}

fn changed_table(change: &Change) -> u32
    ensures { result ≡ changed_table change.now }
{
    match change {
        Change::Insert { table, .. } => *table,
        Change::Update { table, .. } => *table,
        Change::Delete { table, .. } => *table,
    }
}

/// The primary key of the row that the change is about.
fn changed_key(alloc: Global, def: &TableDef, change: &Change) -> Result<Key, NoMemory>
    ensures { IfOk result (λ key. key ≡ (changed_row def.now change.now).key) }
{
    match change {
        Change::Insert { row, .. } => def.key_of(alloc, row),
        Change::Update { before, .. } => def.key_of(alloc, before),
        Change::Delete { before, .. } => def.key_of(alloc, before),
    }
}

#[tactic(auto, using(crate::proofs::ChangeLemmas::placed_all_append))]
fn place_spot(alloc: Global, wants: &mut Vec<Want>, table: u32, spot: &Spot) -> Result<(), NoMemory>
    ensures { OnOk result (wants.new.items ≡ placed_all wants.old.items (spot_wants table spot.now)) }
{
    place_left(alloc, wants, table, spot.index, &spot.leaves)?;
    place_entered(alloc, wants, table, spot)
}

fn place_left(
    alloc: Global,
    wants: &mut Vec<Want>,
    table: u32,
    index: u8,
    leaves: &Option<Key>,
) -> Result<(), NoMemory>
    ensures { OnOk result (wants.new.items ≡ placed_all wants.old.items (left_wants table index leaves.now)) }
{
    match leaves {
        None => Ok(()),
        Some(key) => place_anti_phantom(wants, table, index, Place::At(key.copy(alloc)?)),
    }
}

#[tactic(auto, using(crate::proofs::ChangeLemmas::placed_all_append))]
fn place_entered(
    alloc: Global,
    wants: &mut Vec<Want>,
    table: u32,
    spot: &Spot,
) -> Result<(), NoMemory>
    ensures { OnOk result (wants.new.items ≡ placed_all wants.old.items (entered_wants table spot.now spot.now.enters)) }
{
    match &spot.enters {
        None => Ok(()),
        Some(key) => {
            place_inherited(alloc, wants, table, spot.index, spot.inherits, key)?;
            place_anti_phantom(wants, table, spot.index, Place::At(key.copy(alloc)?))?;
            place_anti_phantom(wants, table, spot.index, spot.successor.copy(alloc)?)
        }
    }
}

fn place_inherited(
    alloc: Global,
    wants: &mut Vec<Want>,
    table: u32,
    index: u8,
    inherits: bool,
    key: &Key,
) -> Result<(), NoMemory>
    ensures { OnOk result (wants.new.items ≡ placed_all wants.old.items (inherited_wants table index inherits key.now)) }
{
    if !inherits {
        return Ok(());
    }
    let place = Place::At(key.copy(alloc)?);
    place_want(wants, gap_want(LockKind::Phantom, table, index, place))
}

fn place_anti_phantom(
    wants: &mut Vec<Want>,
    table: u32,
    index: u8,
    place: Place,
) -> Result<(), NoMemory>
    ensures { OnOk result (wants.new.items ≡ placed (long_want (anti_phantom_lock table index place)) wants.old.items) }
{
    place_want(wants, gap_want(LockKind::AntiPhantom, table, index, place))
}

/// Puts the want at its place in the order, where its lock is not wanted already.
fn place_want(wants: &mut Vec<Want>, want: Want) -> Result<(), NoMemory>
    ensures { OnOk result (wants.new.items ≡ placed want wants.old.items) }
{
    for i in 0..wants.len() {
        match want.lock.cmp(&wants[i].lock) {
            Ordering::Less => {
                wants.insert(i, want)?;
                return Ok(());
            }
            Ordering::Equal => return Ok(()),
            Ordering::Greater => {}
        }
    }
    wants.push(want)?;
    Ok(())
}

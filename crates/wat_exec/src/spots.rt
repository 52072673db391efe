ghost use Rattle.std.specs.Prelude.{◌≡◌, ◌++◌, List, map, option_to_list, IfOk, OnOk, Err, Some};
ghost use Rattle.std.specs.Option.{option_copied, option_map};
ghost use Rattle.wat_faults.specs.Faults.{HasCause};
ghost use Rattle.wat_value.specs.declared.value.Value.{Value};
ghost use Rattle.wat_value.specs.declared.bound.Bound.TheVariants.{Excluding};
ghost use Rattle.wat_value.specs.Changes.{changed_table, row_before, row_after};
ghost use Rattle.wat_value.specs.Indexes.{index_key, index_numbers};
ghost use Rattle.wat_protocol.specs.Moves.{left_key, entered_key};
ghost use Rattle.wat_visits.specs.declared.source.SourceError.TheVariants.{Failed, Memory};
ghost use Rattle.wat_visits.specs.Sourced.{Sourced, IsFirstIn};
ghost use Rattle.wat_exec.specs.Asked.{AreSpots};
ghost use Rattle.wat_exec.specs.Making.{IsSpotIn, moved_from};

use std::alloc::Global;
use wat_level::{Spot, Spots};
use wat_list::{Copied, Items, NoMemory};
use wat_plan::SourceTable;
use wat_value::{Bound, Change, Key, Place, Row};
use wat_visits::{RowSource, SourceError, index_key};

fn row_before(change: &Change) -> Option<&Row>
    ensures { option_copied result ≡ row_before change.now }
{
    match change {
        Change::Insert { table: _, row: _ } => None,
        Change::Update {
            table: _,
            before,
            after: _,
        } => Some(before),
        Change::Delete { table: _, before } => Some(before),
    }
}

fn row_after(change: &Change) -> Option<&Row>
    ensures { option_copied result ≡ row_after change.now }
{
    match change {
        Change::Insert { table: _, row } => Some(row),
        Change::Update {
            table: _,
            before: _,
            after,
        } => Some(after),
        Change::Delete {
            table: _,
            before: _,
        } => None,
    }
}

fn changed_table(change: &Change) -> u32
    ensures { result ≡ changed_table change.now }
{
    match change {
        Change::Insert { table, row: _ } => *table,
        Change::Update {
            table,
            before: _,
            after: _,
        } => *table,
        Change::Delete { table, before: _ } => *table,
    }
}

fn key_if_any(
    alloc: Global,
    table: &SourceTable,
    index: u8,
    row: Option<&Row>,
) -> Result<Option<Key>, NoMemory>
    ensures { IfOk result (λ key. key ≡ option_map (index_key table.now.def table.now.indexes index) (option_copied row.entry)) }
{
    match row {
        Some(row) => Ok(Some(index_key(alloc, table, index, row)?)),
        None => Ok(None),
    }
}

// The key that a row leaves and the one that it comes to.
#[derive(Drop)]
struct Moved {
    leaves: Option<Key>,
    enters: Option<Key>,
}

// Where both keys are the same, none is moved.
fn moved_keys(before: Option<Key>, after: Option<Key>) -> Moved
    ensures leaves { result.leaves ≡ moved_from before after }
    ensures enters { result.enters ≡ moved_from after before }
{
    match (before, after) {
        (Some(leaves), Some(enters)) => {
            if leaves.cmp(&enters).is_eq() {
                Moved {
                    leaves: None,
                    enters: None,
                }
            } else {
                Moved {
                    leaves: Some(leaves),
                    enters: Some(enters),
                }
            }
        }
        (leaves, enters) => Moved { leaves, enters },
    }
}

// The keys that the change moves in the index.
fn moved_in(
    alloc: Global,
    table: &SourceTable,
    index: u8,
    change: &Change,
) -> Result<Moved, NoMemory>
    ensures leaves { IfOk result (λ m. m.leaves ≡ left_key table.now index (row_before change.now) (row_after change.now)) }
    ensures enters { IfOk result (λ m. m.enters ≡ entered_key table.now index (row_before change.now) (row_after change.now)) }
{
    let before = key_if_any(alloc, table, index, row_before(change))?;
    let after = key_if_any(alloc, table, index, row_after(change))?;
    Ok(moved_keys(before, after))
}

// The first position past the key, if there is one.
fn next_past<R: RowSource>(
    alloc: Global,
    rows: &mut R,
    table: u32,
    index: u8,
    enters: &Option<Key>,
) -> Result<Place, SourceError>
    ensures next { (s : Sourced) (key : List Value) → R.stands_for rows.old s → enters.now ≡ Some key → IfOk result (λ place. IsFirstIn s (record { table = table; index = index }) (Excluding key) place) }
    ensures stays { (s : Sourced) → R.stands_for rows.old s → R.stands_for rows.new s }
    ensures beside { R.goes rows.old rows.new }
    ensures cause { HasCause (R.failures rows.old) (R.failures rows.new) (result ≡ Err SourceError.Failed) }
{
    match enters {
        Some(key) => {
            let from = Bound::Excluding(key.copy(alloc)?);
            rows.successor(table, index, &from)
        }
        None => Ok(Place::End),
    }
}

// What the change asks in one index, if it moves a key there.
fn spot_in<R: RowSource>(
    alloc: Global,
    rows: &mut R,
    table: &SourceTable,
    index: u8,
    change: &Change,
) -> Result<Option<Spot>, SourceError>
    ensures spot { IfOk result (IsSpotIn (R.stands_for rows.old) table.now change.now index) }
    ensures stays { (s : Sourced) → R.stands_for rows.old s → R.stands_for rows.new s }
    ensures beside { R.goes rows.old rows.new }
    ensures cause { HasCause (R.failures rows.old) (R.failures rows.new) (result ≡ Err SourceError.Failed) }
{
    let Moved { leaves, enters } = moved_in(alloc, table, index, change)?;
    let successor = next_past(alloc, rows, changed_table(change), index, &enters)?;
    if leaves.is_none() && enters.is_none() {
        return Ok(None);
    }
    Ok(Some(Spot {
        index,
        leaves,
        enters,
        successor,
        inherits: false,
    }))
}

fn index_numbers(alloc: Global, table: &SourceTable) -> Result<Vec<u8>, NoMemory>
    ensures { IfOk result (λ numbers. numbers.items ≡ index_numbers table.now.indexes) }
{
    let mut numbers = Vec::new(alloc);
    numbers.push(0)?;
    for index in table.indexes().as_slice() {
        numbers.push(index.number)?;
    }
    Ok(numbers)
}

fn push_found(spots: &mut Spots, found: Option<Spot>) -> Result<(), NoMemory>
    ensures { OnOk result (spots.new ≡ spots.old ++ option_to_list found) }
{
    match found {
        Some(spot) => spots.push(spot),
        None => Ok(()),
    }
}

/// What the change asks in the indexes of its table. What is inherited can't be seen from here.
pub(crate) fn spots_of<R: RowSource>(
    alloc: Global,
    rows: &mut R,
    table: &SourceTable,
    change: &Change,
) -> Result<Spots, SourceError>
    ensures spots { IfOk result (AreSpots (R.stands_for rows.old) table.now change.now) }
    ensures stays { (s : Sourced) → R.stands_for rows.old s → R.stands_for rows.new s }
    ensures beside { R.goes rows.old rows.new }
    ensures cause { HasCause (R.failures rows.old) (R.failures rows.new) (result ≡ Err SourceError.Failed) }
{
    let numbers = index_numbers(alloc, table)?;
    let mut spots = Items::new(alloc);
    for index in &numbers {
        let found = spot_in(alloc, rows, table, *index, change)?;
        push_found(&mut spots, found)?;
    }
    Ok(spots)
}

ghost use Rattle.std.specs.Prelude.{◌≡◌, ◌&&◌, ◌↔◌, true, Some, is_some, IsTrue, IfOk, OnOk, MatchOption};
ghost use Rattle.std.specs.Option.{option_copied};
ghost use Rattle.wat_value.specs.Changes.{changed_table, row_before};
ghost use Rattle.wat_schema.specs.Changes.{changed_key};
ghost use Rattle.wat_schema.specs.Tables.{IsTables, apply_change, inverse};
ghost use Rattle.wat_replay.specs.State.{State, IsLawful};
ghost use Rattle.wat_replay.specs.Replay.{Allows};
ghost use Rattle.wat_log_record.specs.declared.log_record.LogRecord.TheVariants as entries;
ghost use Rattle.wat_recover.specs.Goes.{Went};
ghost use Rattle.wat_recover.specs.Asked.{fits_change};

use crate::target::{Target, TargetError};
use std::alloc::Global;
use wat_list::NoMemory;
use wat_value::{Change, Key, Row, TableDef, compare_rows, fits};

/// The change that takes this one back.
pub(crate) fn inverse(change: Change) -> Change
    ensures { result ≡ inverse change }
{
    match change {
        Change::Insert { table, row } => Change::Delete { table, before: row },
        Change::Update {
            table,
            before,
            after,
        } => Change::Update {
            table,
            before: after,
            after: before,
        },
        Change::Delete { table, before } => Change::Insert { table, row: before },
    }
}

/// The number of the table that the change is of.
pub(crate) fn table_of(change: &Change) -> u32
    ensures { result ≡ changed_table change.now }
{
    match change {
        Change::Insert { table, .. } => *table,
        Change::Update { table, .. } => *table,
        Change::Delete { table, .. } => *table,
    }
}

/// The primary key of the row that the change is of.
fn key_of(alloc: Global, def: &TableDef, change: &Change) -> Result<Key, NoMemory>
    ensures { IfOk result (λ key. key ≡ changed_key def.now change.now) }
{
    match change {
        Change::Insert { row, .. } => def.key_of(alloc, row),
        Change::Update { before, .. } => def.key_of(alloc, before),
        Change::Delete { before, .. } => def.key_of(alloc, before),
    }
}

/// Whether the row after the change fits, with the key of the one before.
fn fits_change(alloc: Global, def: &TableDef, change: &Change) -> Result<bool, NoMemory>
    ensures { IfOk result (λ passes. passes ≡ fits_change def.now change.now) }
{
    match change {
        Change::Insert { row, .. } => Ok(fits(def, row)),
        Change::Update { before, after, .. } => {
            let key = def.key_of(alloc, before)?;
            let key_after = def.key_of(alloc, after)?;
            Ok(key == key_after && fits(def, after))
        }
        Change::Delete { .. } => Ok(true),
    }
}

/// Whether it is the row that was found.
fn is_found(found: &Option<Row>, row: &Row) -> bool
    ensures { IsTrue result ↔ (found.now ≡ Some row.now) }
{
    match found {
        Some(found) => compare_rows(found.as_slice(), row.as_slice()).is_eq(),
        None => false,
    }
}

/// Whether what was found is what stands before the change.
fn is_before(found: &Option<Row>, change: &Change) -> bool
    ensures { IsTrue result ↔ (found.now ≡ row_before change.now) }
{
    match change {
        Change::Insert { .. } => found.is_none(),
        Change::Update { before, .. } => is_found(found, before),
        Change::Delete { before, .. } => is_found(found, before),
    }
}

/// Whether the change applies, and no other connection has changed its row.
pub(crate) fn may_change<T: Target>(
    alloc: Global,
    target: &mut T,
    conn: u16,
    change: &Change,
) -> Result<bool, TargetError>
    ensures may { (s : State) → T.stands_for target.old s → IsLawful s
        → IfOk result (λ may. IsTrue may ↔ ((is_some (apply_change change.now s.tables) ≡ true) × Allows s (entries.Changed conn change.now))) }
    ensures stays { (s : State) → T.stands_for target.old s → OnOk result (T.stands_for target.new s) }
    ensures went { Went T.goes T.failures target.old target.new (result ≡ Err TargetError.Failed) }
{
    let table = table_of(change);
    let Some(def) = target.schema().def(table) else {
        return Ok(false);
    };
    if !fits_change(alloc, def, change)? {
        return Ok(false);
    }
    let key = key_of(alloc, def, change)?;
    let found = target.row(table, &key)?;
    if !is_before(&found, change) {
        return Ok(false);
    }
    Ok(!target.changed_by_other(conn, table, &key))
}

// What a change asks of its row.
ghost use Rattle.std.specs.Prelude.{◌≡◌, ◌↔◌, Some, IsTrue, IfOk};
ghost use Rattle.wat_value.specs.Changes.{changed_table, row_after, row_before};
ghost use Rattle.wat_schema.specs.Changes.{changed_key};
ghost use Rattle.wat_schema.specs.Tables.{inverse};
ghost use Rattle.wat_recover.specs.Asked.{fits_change};

use std::alloc::Global;
use wat_list::{Copied, NoMemory};
use wat_value::{Change, Key, Row, TableDef, compare_rows, fits};

/// The change that takes this one back.
pub(crate) fn inverse_of(alloc: Global, change: &Change) -> Result<Change, NoMemory>
    ensures { IfOk result (λ back. back ≡ inverse change.now) }
{
    match change {
        Change::Insert { table, row } => {
            let before = row.copy(alloc)?;
            Ok(Change::Delete {
                table: *table,
                before,
            })
        }
        Change::Update {
            table,
            before,
            after,
        } => {
            let stands = after.copy(alloc)?;
            let comes = before.copy(alloc)?;
            Ok(Change::Update {
                table: *table,
                before: stands,
                after: comes,
            })
        }
        Change::Delete { table, before } => {
            let row = before.copy(alloc)?;
            Ok(Change::Insert { table: *table, row })
        }
    }
}

/// The number of the table that the change is of.
pub(crate) fn table_of(change: &Change) -> u32
    ensures { result ≡ changed_table change.now }
{
    match change {
        Change::Insert { table, .. } => *table,
        Change::Update { table, .. } => *table,
        Change::Delete { table, .. } => *table,
    }
}

/// The primary key of the row that the change is of.
pub(crate) fn key_of(alloc: Global, def: &TableDef, change: &Change) -> Result<Key, NoMemory>
    ensures { IfOk result (λ key. key ≡ changed_key def.now change.now) }
{
    match change {
        Change::Insert { row, .. } => def.key_of(alloc, row),
        Change::Update { before, .. } => def.key_of(alloc, before),
        Change::Delete { before, .. } => def.key_of(alloc, before),
    }
}

/// Whether the row after the change fits, with the key of the one before.
pub(crate) fn fits_change(alloc: Global, def: &TableDef, change: &Change) -> Result<bool, NoMemory>
    ensures { IfOk result (λ passes. passes ≡ fits_change def.now change.now) }
{
    match change {
        Change::Insert { row, .. } => Ok(fits(def, row)),
        Change::Update { before, after, .. } => {
            let key = def.key_of(alloc, before)?;
            let key_after = def.key_of(alloc, after)?;
            Ok(key == key_after && fits(def, after))
        }
        Change::Delete { .. } => Ok(true),
    }
}

/// Whether it is the row that was found.
fn is_found(found: &Option<Row>, row: &Row) -> bool
    ensures { IsTrue result ↔ (found.now ≡ Some row.now) }
{
    match found {
        Some(found) => compare_rows(found.as_slice(), row.as_slice()).is_eq(),
        None => false,
    }
}

/// Whether what was found is what stands before the change.
pub(crate) fn is_before(found: &Option<Row>, change: &Change) -> bool
    ensures { IsTrue result ↔ (found.now ≡ row_before change.now) }
{
    match change {
        Change::Insert { .. } => found.is_none(),
        Change::Update { before, .. } => is_found(found, before),
        Change::Delete { before, .. } => is_found(found, before),
    }
}

/// What stands after the change.
pub(crate) fn after(change: Change) -> Option<Row>
    ensures { result ≡ row_after change }
{
    match change {
        Change::Insert { row, .. } => Some(row),
        Change::Update { after, .. } => Some(after),
        Change::Delete { .. } => None,
    }
}

// Which changes that stand are of a row.
ghost use Rattle.std.specs.Prelude.{◌≡◌, ◌≢◌, ◌↔◌, ◌==◌, ◌&&◌, ℕ, true, IsTrue};
ghost use Rattle.std.specs.List.{list_any};
ghost use Rattle.wat_value.specs.Changes.{changed_table};
ghost use Rattle.wat_value.specs.Fits.{value_in, values_in};
ghost use Rattle.wat_value.specs.Order.{key_eq};
ghost use Rattle.wat_schema.specs.Changes.{changed_key};
ghost use Rattle.wat_recover.specs.Asked.{is_of_row, row_in};
ghost use Rattle.wat_undo.specs.Kept.{lists_of};

use sqlite_items::at;
use wat_schema::Schema;
use wat_undo::Undo;
use wat_value::{Change, Key, TableDef, Value};

/// The number of the table that the change is of.
fn table_of(change: &Change) -> u32
    ensures { result ≡ changed_table change.now }
{
    match change {
        Change::Insert { table, .. } => *table,
        Change::Update { table, .. } => *table,
        Change::Delete { table, .. } => *table,
    }
}

/// The row that the change is of.
fn row_of(change: &Change) -> &[Value]
    ensures { result.now ≡ row_in change.now }
{
    match change {
        Change::Insert { row, .. } => row.as_slice(),
        Change::Update { before, .. } => before.as_slice(),
        Change::Delete { before, .. } => before.as_slice(),
    }
}

/// Whether the value stands in the column; past the row's last one Null does.
fn is_in_column(row: &[Value], column: u8, value: &Value) -> bool
    ensures { IsTrue result ↔ (value.now ≡ value_in row.now column) }
{
    match at(row, column as usize) {
        Some(found) => value == found,
        None => value == &Value::Null,
    }
}

/// Whether these are the row's values in the columns.
fn are_in_columns(row: &[Value], columns: &[u8], values: &[Value]) -> bool
    ensures { IsTrue result ↔ (values.now ≡ values_in row.now columns.now) }
{
    if columns.len() != values.len() {
        return false;
    }
    for i in 0..values.len() {
        if !is_in_column(row, columns[i], &values[i]) {
            return false;
        }
    }
    true
}

/// Whether the change is of the row of the table of that number and definition with that key.
fn is_of_row(def: &TableDef, table: u32, key: &Key, change: &Change) -> bool
    ensures { result ≡ ((table == changed_table change.now) && key_eq key.now (changed_key def.now change.now)) }
{
    table == table_of(change) && are_in_columns(row_of(change), def.key.as_slice(), key.as_slice())
}

/// Whether a change of the connection is of that row.
fn has_changed(undo: &Undo, def: &TableDef, conn: u16, table: u32, key: &Key) -> bool
    ensures { result ≡ list_any (λ change. (table == changed_table change) && key_eq key.now (changed_key def.now change)) (lists_of undo.now conn) }
{
    for i in 0..undo.count(conn) {
        if is_of_row(def, table, key, undo.change(conn, i)) {
            return true;
        }
    }
    false
}

/// Whether a change of another connection is of the row of that table with that key.
pub(crate) fn is_changed_by_other(
    undo: &Undo,
    schema: &Schema,
    conn: u16,
    table: u32,
    key: &Key,
) -> bool
    ensures { IsTrue result ↔ ((other : ℕ) × (other ≢ conn) × (list_any (is_of_row schema.now table key.now) (lists_of undo.now other) ≡ true)) }
{
    let Some(def) = schema.def(table) else {
        return false;
    };
    let mut from = 0;
    while let Some(other) = undo.next_open(from) {
        if other != conn && has_changed(undo, def, other, table, key) {
            return true;
        }
        from = u32::from(other) + 1;
    }
    false
}

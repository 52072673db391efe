ghost use Rattle.std.specs.Prelude.{◌≡◌, map, position, IfOk};
ghost use Rattle.std.specs.Option.{option_map};
ghost use Rattle.wat_group.specs.Query.{has_error, unless};
ghost use Rattle.wat_schema.specs.Catalog.{ordinal};
ghost use Rattle.wat_meaning.specs.Meaning.{sole_row, with_value};
ghost use Rattle.wat_made.specs.Setting.{row_after, rows_after, set_outcomes, sets_fail};

use crate::values::value;
use std::alloc::Global;
use wat_ast::SetItem;
use wat_list::{Copied, Items, NoMemory};
use wat_value::{Combination, Row, TableDef, Value};

fn ordinal(def: &TableDef, name: &str) -> Option<usize>
    ensures { result ≡ ordinal def.now name.now }
{
    def.columns
        .as_slice()
        .iter()
        .position(|column| name == column.name.as_str())
}

fn with_value(column: Option<usize>, value: Value, mut row: Row) -> Row
    ensures { result ≡ with_value column value row }
{
    if let Some(column) = column {
        if column < row.len() {
            row.set(column, value);
        }
    }
    row
}

/// The row of a combination of one source.
pub fn sole_row(alloc: Global, rows: &Combination) -> Result<Row, NoMemory>
    ensures { IfOk result (λ row. row ≡ sole_row rows.now) }
{
    match rows.as_slice() {
        [Some(row), ..] => row.copy(alloc),
        _ => Ok(Items::new(alloc)),
    }
}

// The row after SET, or None where a value has an error. Each value is computed over the row as it
// stood before.
fn row_after(
    alloc: Global,
    def: &TableDef,
    sets: &[SetItem],
    rows: &Combination,
) -> Result<Option<Row>, NoMemory>
    ensures { IfOk result (λ after. after ≡ unless (has_error (set_outcomes sets.now rows.now)) (row_after def.now sets.now rows.now (sole_row rows.now))) }
{
    let mut after = sole_row(alloc, rows)?;
    for set in sets {
        match value(alloc, &set.value, rows)? {
            Some(value) => after = with_value(ordinal(def, set.name.as_str()), value, after),
            None => return Ok(None),
        }
    }
    Ok(Some(after))
}

/// The rows after SET, of the combinations of one row each, or None where a value has an error.
pub fn rows_after(
    alloc: Global,
    def: &TableDef,
    sets: &[SetItem],
    met: &[Combination],
) -> Result<Option<Vec<Row>>, NoMemory>
    ensures { IfOk result (λ after. option_map (λ rows. rows.items) after ≡ unless (sets_fail sets.now met.now) (rows_after def.now sets.now met.now)) }
{
    let mut after = Vec::new(alloc);
    for rows in met {
        match row_after(alloc, def, sets, rows)? {
            Some(row) => after.push(row)?,
            None => return Ok(None),
        }
    }
    Ok(Some(after))
}

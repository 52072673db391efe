ghost use Rattle.std.specs.Prelude.{◌≡◌, IfOk};
ghost use Rattle.std.specs.List.{flat_map, zip};
ghost use Rattle.wat_value.specs.Fits.{is_missing, is_out_of_range, is_too_long, max_length};
ghost use Rattle.wat_names.specs.Refusals.{first};
ghost use Rattle.wat_meaning.specs.Meaning.{column_fault, row_faults};

use std::alloc::Global;
use wat_list::{Copied, NoMemory};
use wat_schema::Refusal;
use wat_value::{Column, Kind, Row, TableDef, Value};

fn is_missing(column: &Column, value: &Value) -> bool
    ensures { result ≡ is_missing column.now value.now }
{
    matches!(value, Value::Null) && !column.nullable
}

fn is_out_of_range(kind: Kind, value: &Value) -> bool
    ensures { result ≡ is_out_of_range kind value.now }
{
    match (kind, value) {
        (Kind::Integer, Value::Int(n)) => *n < -2147483648 || *n > 2147483647,
        _ => false,
    }
}

fn max_length(kind: Kind) -> u16
    ensures { result ≡ max_length kind }
{
    match kind {
        Kind::Integer => 0,
        Kind::Char(most) | Kind::Varchar(most) => most,
    }
}

fn is_too_long(kind: Kind, value: &Value) -> bool
    ensures { result ≡ is_too_long kind value.now }
{
    match value {
        Value::Text(text) => text.as_str().len() > max_length(kind) as usize,
        Value::Null | Value::Int(_) => false,
    }
}

// The refusal of a value by its column.
fn column_fault(alloc: Global, column: &Column, value: &Value) -> Result<Option<Refusal>, NoMemory>
    ensures { IfOk result (λ fault. fault ≡ first (column_fault (column.now, value.now))) }
{
    if is_missing(column, value) {
        let name = column.name.copy(alloc)?;
        return Ok(Some(Refusal::NullValue { name }));
    }
    if is_out_of_range(column.kind, value) {
        let name = column.name.copy(alloc)?;
        return Ok(Some(Refusal::OutOfRange { name }));
    }
    if is_too_long(column.kind, value) {
        let name = column.name.copy(alloc)?;
        return Ok(Some(Refusal::TooLong { name }));
    }
    Ok(None)
}

fn row_fault(alloc: Global, columns: &[Column], row: &[Value]) -> Result<Option<Refusal>, NoMemory>
    ensures { IfOk result (λ fault. fault ≡ first (flat_map column_fault (zip columns.now row.now))) }
{
    for (column, value) in columns.iter().zip(row) {
        if let Some(fault) = column_fault(alloc, column, value)? {
            return Ok(Some(fault));
        }
    }
    Ok(None)
}

/// The refusal of the first row that fails by its first column that does.
pub fn first_fault(alloc: Global, def: &TableDef, rows: &[Row]) -> Result<Option<Refusal>, NoMemory>
    ensures { IfOk result (λ fault. fault ≡ first (row_faults def.now rows.now)) }
{
    for row in rows {
        if let Some(fault) = row_fault(alloc, def.columns.as_slice(), row.as_slice())? {
            return Ok(Some(fault));
        }
    }
    Ok(None)
}

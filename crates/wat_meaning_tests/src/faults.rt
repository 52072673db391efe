use std::alloc::{AllocError, Global};
use wat_value::{Column, Row, TableDef, Value};

// Why a value of its column's type does not pass the tests of the column.
fn fault(alloc: Global, column: &Column, value: &Value) -> Result<Option<String>, AllocError> {
    if column.takes(value) {
        return Ok(None);
    }
    let name = column.name.as_str();
    let fault = match value {
        Value::Null => format!(in alloc; "NullValue {name}")?,
        Value::Int(_) => format!(in alloc; "OutOfRange {name}")?,
        Value::Text(_) => format!(in alloc; "TooLong {name}")?,
    };
    Ok(Some(fault))
}

/// The fault of the first value that does not pass the tests of its column.
pub(crate) fn first_fault(
    alloc: Global,
    def: &TableDef,
    row: &Row,
) -> Result<Option<String>, AllocError> {
    for (column, value) in def.columns.as_slice().iter().zip(row.as_slice()) {
        if let Some(fault) = fault(alloc, column, value)? {
            return Ok(Some(fault));
        }
    }
    Ok(None)
}

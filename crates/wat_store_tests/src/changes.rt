// The tables of the tests, and changes of their rows.
ghost use Rattle.std.specs.Prelude.{IfOk};
ghost use Rattle.wat_value.specs.Encoding.{IsShort};
ghost use Rattle.wat_log_record.specs.Encoding.{IsWritableChange, IsWritableTable};

use crate::calls::Refused;
use std::alloc::{AllocError, Global};
use wat_list::Items;
use wat_value::{Change, Column, Kind, Name, Row, TableDef, Value};

fn column(alloc: Global, text: &str, nullable: bool) -> Result<Column, Refused> {
    let name = Name::new(alloc, text)?.ok_or(Refused::Other)?;
    Ok(Column {
        name,
        kind: Kind::Integer,
        nullable,
    })
}

// A table of two integers, the key k and the column v.
pub fn definition(alloc: Global, number: u32, name: &str) -> Result<TableDef, Refused>
    ensures { IfOk result (λ def. IsWritableTable def) }
{
    let mut columns = Items::new(alloc);
    columns.push(column(alloc, "k", false)?)?;
    columns.push(column(alloc, "v", true)?)?;
    Ok(TableDef {
        number,
        name: Name::new(alloc, name)?.ok_or(Refused::Other)?,
        columns,
        key: Items::from_slice(alloc, &[0])?,
    })
}

fn row_of(alloc: Global, key: i64, value: i64) -> Result<Row, AllocError>
    ensures { IfOk result (λ row. IsShort row) }
{
    let mut row = Items::new(alloc);
    row.push(Value::Int(key))?;
    row.push(Value::Int(value))?;
    Ok(row)
}

pub fn inserted(alloc: Global, table: u32, key: i64, value: i64) -> Result<Change, AllocError>
    ensures { IfOk result (λ change. IsWritableChange change) }
{
    let row = row_of(alloc, key, value)?;
    Ok(Change::Insert { table, row })
}

// The first table's row of that key has another value.
pub fn updated(alloc: Global, key: i64, from: i64, to: i64) -> Result<Change, AllocError>
    ensures { IfOk result (λ change. IsWritableChange change) }
{
    let before = row_of(alloc, key, from)?;
    let after = row_of(alloc, key, to)?;
    Ok(Change::Update {
        table: 1,
        before,
        after,
    })
}

pub fn deleted(alloc: Global, key: i64, value: i64) -> Result<Change, AllocError>
    ensures { IfOk result (λ change. IsWritableChange change) }
{
    let before = row_of(alloc, key, value)?;
    Ok(Change::Delete { table: 1, before })
}

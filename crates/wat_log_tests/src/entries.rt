// The records that the tests note, and their kinds.
ghost use Rattle.std.specs.Prelude.{◌<◌, ◌^◌, length, IfOk};
ghost use Rattle.wat_value.specs.Encoding.{IsShort};
ghost use Rattle.wat_log_record.specs.Encoding.{IsWritable};

use crate::steps::Refused;
use std::alloc::{AllocError, Global};
use wat_list::Items;
use wat_record::LogRecord;
use wat_value::{Change, Column, Kind, Name, Row, SchemaChange, TableDef, Text, Value};

// A record by what it tells. A text is a row of one text of so many bytes.
#[derive(Clone, Copy, Debug)]
pub enum Entry {
    Created,
    Inserted { key: i64, value: i64 },
    Text { size: u16 },
    UndoTo { count: u32 },
    Rollback { conn: u16 },
}

fn column(alloc: Global, text: &str, nullable: bool) -> Result<Column, Refused> {
    let name = Name::new(alloc, text)?.ok_or(Refused::Other)?;
    Ok(Column {
        name,
        kind: Kind::Integer,
        nullable,
    })
}

// The table t with the key k and the column v.
fn created(alloc: Global) -> Result<LogRecord, Refused>
    ensures { IfOk result (λ entry. IsWritable entry) }
{
    let mut columns = Items::new(alloc);
    columns.push(column(alloc, "k", false)?)?;
    columns.push(column(alloc, "v", true)?)?;
    let def = TableDef {
        number: 1,
        name: Name::new(alloc, "t")?.ok_or(Refused::Other)?,
        columns,
        key: Items::from_slice(alloc, &[0])?,
    };
    Ok(LogRecord::Schema(SchemaChange::CreateTable(def)))
}

fn numbers(alloc: Global, key: i64, value: i64) -> Result<Row, AllocError>
    ensures { IfOk result (λ row. IsShort row) }
{
    let mut row = Items::new(alloc);
    row.push(Value::Int(key))?;
    row.push(Value::Int(value))?;
    Ok(row)
}

fn text(alloc: Global, text: &str) -> Result<Row, AllocError>
    requires { length text.now < 2 ^ 16 }
    ensures { IfOk result (λ row. IsShort row) }
{
    let mut row = Items::new(alloc);
    row.push(Value::Text(Text::of(alloc, text)?))?;
    Ok(row)
}

// A row of so many letters.
fn letters(alloc: Global, size: u16) -> Result<Row, Refused>
    ensures { IfOk result (λ row. IsShort row) }
{
    let bytes = vec![in alloc; b'a'; size as usize]?;
    let Ok(long) = str::from_utf8(&bytes) else {
        return Err(Refused::Other);
    };
    if long.len() > 65_535 {
        return Err(Refused::Other);
    }
    Ok(text(alloc, long)?)
}

fn inserted(row: Row) -> LogRecord
    requires { IsShort row }
    ensures { IsWritable result }
{
    let change = Change::Insert { table: 1, row };
    LogRecord::Changed { conn: 1, change }
}

// The record that is told.
pub fn record_of(alloc: Global, entry: Entry) -> Result<LogRecord, Refused>
    ensures { IfOk result (λ made. IsWritable made) }
{
    match entry {
        Entry::Created => created(alloc),
        Entry::Inserted { key, value } => Ok(inserted(numbers(alloc, key, value)?)),
        Entry::Text { size } => Ok(inserted(letters(alloc, size)?)),
        Entry::UndoTo { count } => Ok(LogRecord::UndoTo { conn: 1, count }),
        Entry::Rollback { conn } => Ok(LogRecord::Rollback { conn }),
    }
}

// A letter for what a record tells, and its connection.
pub fn kind_of(entry: &LogRecord) -> (char, u16) {
    match entry {
        LogRecord::Changed { conn, .. } => ('c', *conn),
        LogRecord::UndoTo { conn, .. } => ('u', *conn),
        LogRecord::Commit { conn } => ('k', *conn),
        LogRecord::Rollback { conn } => ('r', *conn),
        LogRecord::Schema(_) => ('s', 0),
    }
}

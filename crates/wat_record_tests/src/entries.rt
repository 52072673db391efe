ghost use Rattle.std.specs.Prelude.{◌<◌, ◌^◌, length, IfOk};
ghost use Rattle.wat_value.specs.Encoding.{IsShort};
ghost use Rattle.wat_log_record.specs.Encoding.{IsWritable};

// The records that the tests write.
use std::alloc::Global;
use std::test::Fail;
use wat_list::Items;
use wat_record::LogRecord;
use wat_value::{Change, Column, IndexDef, Kind, Name, Row, SchemaChange, TableDef, Text, Value};

fn name(alloc: Global, text: &str) -> Result<Name, Fail> {
    let name = Name::new(alloc, text)?.ok_or("no name")?;
    Ok(name)
}

fn column(alloc: Global, text: &str, kind: Kind, nullable: bool) -> Result<Column, Fail> {
    Ok(Column {
        name: name(alloc, text)?,
        kind,
        nullable,
    })
}

// The table t with the key k and the column v.
pub fn created(alloc: Global) -> Result<LogRecord, Fail>
    ensures { IfOk result (λ entry. IsWritable entry) }
{
    let mut columns = Items::new(alloc);
    columns.push(column(alloc, "k", Kind::Integer, false)?)?;
    columns.push(column(alloc, "v", Kind::Integer, true)?)?;
    let def = TableDef {
        number: 1,
        name: name(alloc, "t")?,
        columns,
        key: Items::from_slice(alloc, &[0])?,
    };
    Ok(LogRecord::Schema(SchemaChange::CreateTable(def)))
}

// An index of two columns.
pub fn indexed(alloc: Global) -> Result<LogRecord, Fail>
    ensures { IfOk result (λ entry. IsWritable entry) }
{
    let index = IndexDef {
        number: 1,
        table: 2,
        name: name(alloc, "by_v")?,
        columns: Items::from_slice(alloc, &[1, 0])?,
    };
    Ok(LogRecord::Schema(SchemaChange::CreateIndex(index)))
}

fn numbers(alloc: Global, key: i64, value: i64) -> Result<Row, Fail>
    ensures { IfOk result (λ row. IsShort row) }
{
    let mut row = Items::new(alloc);
    row.push(Value::Int(key))?;
    row.push(Value::Int(value))?;
    Ok(row)
}

// Connection 1 inserts a row into table 1.
pub fn inserted(alloc: Global, key: i64, value: i64) -> Result<LogRecord, Fail>
    ensures { IfOk result (λ entry. IsWritable entry) }
{
    let row = numbers(alloc, key, value)?;
    let change = Change::Insert { table: 1, row };
    Ok(LogRecord::Changed { conn: 1, change })
}

// Connection 2 puts another value into a row of table 1.
pub fn replaced(alloc: Global, key: i64, value: i64, by: i64) -> Result<LogRecord, Fail>
    ensures { IfOk result (λ entry. IsWritable entry) }
{
    let before = numbers(alloc, key, value)?;
    let after = numbers(alloc, key, by)?;
    let change = Change::Update {
        table: 1,
        before,
        after,
    };
    Ok(LogRecord::Changed { conn: 2, change })
}

fn text(alloc: Global, text: &str) -> Result<Row, Fail>
    requires { length text.now < 2 ^ 16 }
    ensures { IfOk result (λ row. IsShort row) }
{
    let mut row = Items::new(alloc);
    row.push(Value::Text(Text::of(alloc, text)?))?;
    Ok(row)
}

// Connection 2 puts one text in the place of another.
pub fn updated(alloc: Global) -> Result<LogRecord, Fail>
    ensures { IfOk result (λ entry. IsWritable entry) }
{
    let before = text(alloc, "a")?;
    let after = text(alloc, "")?;
    let change = Change::Update {
        table: 3,
        before,
        after,
    };
    Ok(LogRecord::Changed { conn: 2, change })
}

// Connection 65,535 deletes a row of one Null.
pub fn deleted(alloc: Global) -> Result<LogRecord, Fail>
    ensures { IfOk result (λ entry. IsWritable entry) }
{
    let mut before = Items::new(alloc);
    before.push(Value::Null)?;
    let change = Change::Delete { table: 256, before };
    Ok(LogRecord::Changed {
        conn: 65_535,
        change,
    })
}

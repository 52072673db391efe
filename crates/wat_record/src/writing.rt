ghost use Rattle.std.specs.Prelude.{◌≡◌, ◌<◌, ◌++◌, length, take, vec_len, OnOk, OnErr};
ghost use Rattle.wat_value.specs.Encoding.{count_bytes, row_bytes, IsEncodable, IsShort};
ghost use Rattle.wat_log_record.specs.Encoding.{number_bytes, counted_bytes, kind_bytes, column_bytes, columns_bytes, table_bytes, index_bytes, change_bytes, schema_bytes, record_bytes};
ghost use Rattle.wat_log_record.specs.Encoding.{IsName, IsEncodableKind, IsEncodableColumn, AreEncodableColumns, IsEncodableTable, IsEncodableIndex, IsEncodableChange, IsEncodableSchema, IsEncodableRecord};
ghost use Rattle.wat_log_record.specs.Encoding.{IsWritableTable, IsWritableIndex, IsWritableChange, IsWritableSchema, IsWritable};
ghost use Rattle.wat_log_record.specs.declared.log_record.LogRecord.TheVariants as entries;

use byteorder::{BigEndian, ByteOrder};
use wat_list::NoMemory;
use wat_log_record::LogRecord;
use wat_value::{Change, Column, IndexDef, Kind, Name, SchemaChange, TableDef, encode};

/// The byte in front of each record.
pub(crate) const CHANGED: u8 = 1;

pub(crate) const UNDO_TO: u8 = 2;

pub(crate) const COMMIT: u8 = 3;

pub(crate) const ROLLBACK: u8 = 4;

pub(crate) const SCHEMA: u8 = 5;

/// The byte in front of each change of a row.
pub(crate) const INSERT: u8 = 1;

pub(crate) const UPDATE: u8 = 2;

pub(crate) const DELETE: u8 = 3;

/// The byte in front of each change of the schema.
pub(crate) const CREATE_TABLE: u8 = 1;

pub(crate) const DROP_TABLE: u8 = 2;

pub(crate) const CREATE_INDEX: u8 = 3;

/// The byte in front of each kind of column.
pub(crate) const INTEGER: u8 = 1;

pub(crate) const CHAR: u8 = 2;

pub(crate) const VARCHAR: u8 = 3;

// After an `Err` of a function of this file some bytes may stand behind those that `out` had.

/// Adds a number of 2 bytes, the higher first.
#[tactic(auto, unfolding(wat_value::specs::Encoding::count_bytes))]
pub fn push_count(count: u16, out: &mut Vec<u8>) -> Result<(), NoMemory>
    ensures ok { OnOk result (out.new.items ≡ out.old.items ++ count_bytes count) }
    ensures err { OnErr result (take (vec_len out.old) out.new.items ≡ out.old.items) }
{
    let mut bytes = [0; 2];
    BigEndian::write_u16(&mut bytes, count);
    out.extend_from_slice(&bytes)
}

/// Adds a number of 4 bytes, the highest first.
#[tactic(auto, unfolding(wat_log_record::specs::Encoding::number_bytes))]
pub fn push_number(number: u32, out: &mut Vec<u8>) -> Result<(), NoMemory>
    ensures ok { OnOk result (out.new.items ≡ out.old.items ++ number_bytes number) }
    ensures err { OnErr result (take (vec_len out.old) out.new.items ≡ out.old.items) }
{
    let mut bytes = [0; 4];
    BigEndian::write_u32(&mut bytes, number);
    out.extend_from_slice(&bytes)
}

fn push_counted(bytes: &[u8], out: &mut Vec<u8>) -> Result<(), NoMemory>
    requires { length bytes.now < 256 }
    ensures ok { OnOk result (out.new.items ≡ out.old.items ++ counted_bytes bytes.now) }
    ensures err { OnErr result (take (vec_len out.old) out.new.items ≡ out.old.items) }
{
    out.push(bytes.len() as u8)?;
    out.extend_from_slice(bytes)
}

fn push_name(name: &Name, out: &mut Vec<u8>) -> Result<(), NoMemory>
    ensures ok { OnOk result (out.new.items ≡ out.old.items ++ counted_bytes name.now) }
    ensures name { IsName name.now }
    ensures err { OnErr result (take (vec_len out.old) out.new.items ≡ out.old.items) }
{
    push_counted(name.as_str().as_bytes(), out)
}

fn push_kind(kind: Kind, out: &mut Vec<u8>) -> Result<(), NoMemory>
    ensures ok { OnOk result (out.new.items ≡ out.old.items ++ kind_bytes kind) }
    ensures encodable { IsEncodableKind kind }
    ensures err { OnErr result (take (vec_len out.old) out.new.items ≡ out.old.items) }
{
    match kind {
        Kind::Integer => {
            out.push(INTEGER)?;
            push_count(0, out)
        }
        Kind::Char(most) => {
            out.push(CHAR)?;
            push_count(most, out)
        }
        Kind::Varchar(most) => {
            out.push(VARCHAR)?;
            push_count(most, out)
        }
    }
}

fn push_column(column: &Column, out: &mut Vec<u8>) -> Result<(), NoMemory>
    ensures ok { OnOk result (out.new.items ≡ out.old.items ++ column_bytes column.now) }
    ensures encodable { OnOk result (IsEncodableColumn column.now) }
    ensures err { OnErr result (take (vec_len out.old) out.new.items ≡ out.old.items) }
{
    push_name(&column.name, out)?;
    push_kind(column.kind, out)?;
    out.push(u8::from(column.nullable))?;
    Ok(())
}

fn push_columns(columns: &[Column], out: &mut Vec<u8>) -> Result<(), NoMemory>
    requires { length columns.now < 256 }
    ensures ok { OnOk result (out.new.items ≡ out.old.items ++ columns_bytes columns.now) }
    ensures encodable { OnOk result (AreEncodableColumns columns.now) }
    ensures err { OnErr result (take (vec_len out.old) out.new.items ≡ out.old.items) }
{
    out.push(columns.len() as u8)?;
    for column in columns {
        push_column(column, out)?;
    }
    Ok(())
}

/// Adds the bytes of a table's definition. Each of its lists has fewer than 256 items.
pub fn push_table(def: &TableDef, out: &mut Vec<u8>) -> Result<(), NoMemory>
    requires { IsWritableTable def.now }
    ensures ok { OnOk result (out.new.items ≡ out.old.items ++ table_bytes def.now) }
    ensures encodable { OnOk result (IsEncodableTable def.now) }
    ensures err { OnErr result (take (vec_len out.old) out.new.items ≡ out.old.items) }
{
    push_number(def.number, out)?;
    push_name(&def.name, out)?;
    push_columns(def.columns.as_slice(), out)?;
    push_counted(def.key.as_slice(), out)
}

/// Adds the bytes of an index's definition. Its list of columns has fewer than 256 items, and its number is at least 1.
pub fn push_index(index: &IndexDef, out: &mut Vec<u8>) -> Result<(), NoMemory>
    requires { IsWritableIndex index.now }
    ensures ok { OnOk result (out.new.items ≡ out.old.items ++ index_bytes index.now) }
    ensures encodable { OnOk result (IsEncodableIndex index.now) }
    ensures err { OnErr result (take (vec_len out.old) out.new.items ≡ out.old.items) }
{
    out.push(index.number)?;
    push_number(index.table, out)?;
    push_name(&index.name, out)?;
    push_counted(index.columns.as_slice(), out)
}

/// Adds the bytes of a change. Each row has fewer than 65,536 values, and each of its texts fewer than 65,536 bytes.
pub fn push_change(change: &Change, out: &mut Vec<u8>) -> Result<(), NoMemory>
    requires { IsWritableChange change.now }
    ensures ok { OnOk result (out.new.items ≡ out.old.items ++ change_bytes change.now) }
    ensures encodable { OnOk result (IsEncodableChange change.now) }
    ensures err { OnErr result (take (vec_len out.old) out.new.items ≡ out.old.items) }
{
    match change {
        Change::Insert { table, row } => {
            out.push(INSERT)?;
            push_number(*table, out)?;
            encode(row, out)
        }
        Change::Update {
            table,
            before,
            after,
        } => {
            out.push(UPDATE)?;
            push_number(*table, out)?;
            encode(before, out)?;
            encode(after, out)
        }
        Change::Delete { table, before } => {
            out.push(DELETE)?;
            push_number(*table, out)?;
            encode(before, out)
        }
    }
}

fn push_schema_change(change: &SchemaChange, out: &mut Vec<u8>) -> Result<(), NoMemory>
    requires { IsWritableSchema change.now }
    ensures ok { OnOk result (out.new.items ≡ out.old.items ++ schema_bytes change.now) }
    ensures encodable { OnOk result (IsEncodableSchema change.now) }
    ensures err { OnErr result (take (vec_len out.old) out.new.items ≡ out.old.items) }
{
    match change {
        SchemaChange::CreateTable(def) => {
            out.push(CREATE_TABLE)?;
            push_table(def, out)
        }
        SchemaChange::DropTable { table } => {
            out.push(DROP_TABLE)?;
            push_number(*table, out)
        }
        SchemaChange::CreateIndex(index) => {
            out.push(CREATE_INDEX)?;
            push_index(index, out)
        }
    }
}

/// Adds the bytes of the record that a connection made this change. Each row of the change has fewer than 65,536 values, and each of its
/// texts fewer than 65,536 bytes.
pub fn push_changed(conn: u16, change: &Change, out: &mut Vec<u8>) -> Result<(), NoMemory>
    requires { IsWritableChange change.now }
    ensures ok { OnOk result (out.new.items ≡ out.old.items ++ record_bytes (entries.Changed conn change.now)) }
    ensures encodable { OnOk result (IsEncodableRecord (entries.Changed conn change.now)) }
    ensures err { OnErr result (take (vec_len out.old) out.new.items ≡ out.old.items) }
{
    out.push(CHANGED)?;
    push_count(conn, out)?;
    push_change(change, out)
}

fn push_record(entry: &LogRecord, out: &mut Vec<u8>) -> Result<(), NoMemory>
    requires { IsWritable entry.now }
    ensures ok { OnOk result (out.new.items ≡ out.old.items ++ record_bytes entry.now) }
    ensures encodable { OnOk result (IsEncodableRecord entry.now) }
    ensures err { OnErr result (take (vec_len out.old) out.new.items ≡ out.old.items) }
{
    match entry {
        LogRecord::Changed { conn, change } => push_changed(*conn, change, out),
        LogRecord::UndoTo { conn, count } => {
            out.push(UNDO_TO)?;
            push_count(*conn, out)?;
            push_number(*count, out)
        }
        LogRecord::Commit { conn } => {
            out.push(COMMIT)?;
            push_count(*conn, out)
        }
        LogRecord::Rollback { conn } => {
            out.push(ROLLBACK)?;
            push_count(*conn, out)
        }
        LogRecord::Schema(change) => {
            out.push(SCHEMA)?;
            push_schema_change(change, out)
        }
    }
}

/// Adds the bytes of the record at the end of `out`, and nothing where memory is wanted.
///
/// Each row has fewer than 65,536 values, and each of its texts fewer than 65,536 bytes. Each list of
/// a definition has fewer than 256 items, and an index has a number of at least 1.
pub fn write_record(entry: &LogRecord, out: &mut Vec<u8>) -> Result<(), NoMemory>
    requires { IsWritable entry.now }
    ensures ok { OnOk result (out.new.items ≡ out.old.items ++ record_bytes entry.now) }

    // So `read_record` reads the record back.
    ensures encodable { OnOk result (IsEncodableRecord entry.now) }
    ensures err { OnErr result (out.new.items ≡ out.old.items) }
{
    let start = out.len();
    match push_record(entry, out) {
        Ok(()) => Ok(()),
        Err(error) => {
            out.truncate(start);
            Err(error)
        }
    }
}

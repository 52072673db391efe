ghost use Rattle.std.specs.Prelude.{◌≡◌, ◌++◌, ◌<◌, ◌≤◌, List, ℕ, length, Some, IfOk, IfSome, IfNone, MatchOption};
ghost use Rattle.std.specs.List.{flat_map};
ghost use Rattle.wat_value.specs.Encoding.{count_bytes, row_bytes, IsEncodable};
ghost use Rattle.wat_log_record.specs.Encoding.{number_bytes, counted_bytes, kind_bytes, flag_bytes, column_bytes, columns_bytes, table_bytes, index_bytes, change_bytes, schema_bytes, record_bytes};
ghost use Rattle.wat_log_record.specs.Encoding.{IsCount, IsNumber, IsName, AreFew, IsEncodableKind, IsEncodableColumn, AreEncodableColumns, IsEncodableTable, IsEncodableIndex, IsEncodableChange, IsEncodableSchema, IsEncodableRecord, SpellsRecord, SpellsNoRecord};
ghost use Rattle.wat_log_record.specs.Reading.{Begins, BeginsNone, AreColumns};
ghost use Rattle.wat_log_record.specs.declared.log_record.LogRecord.{LogRecord as AnyRecord};

use crate::writing::{
    CHANGED, CHAR, COMMIT, CREATE_INDEX, CREATE_TABLE, DELETE, DROP_TABLE, INSERT, INTEGER,
    ROLLBACK, SCHEMA, UNDO_TO, UPDATE, VARCHAR,
};
use byteorder::{BigEndian, ByteOrder};
use std::alloc::Global;
use wat_list::{Items, NoMemory};
use wat_log_record::LogRecord;
use wat_value::{
    Change, Column, Columns, IndexDef, Kind, Name, Ordinals, Row, SchemaChange, TableDef, decode,
};

// Each function of this file reads what the bytes begin with, and gives back the rest behind it. It
// answers `None` exactly where they begin with no such thing.

/// The number of 2 bytes that the bytes begin with, and the rest; `None` exactly where there are fewer.
pub fn read_count(bytes: &[u8]) -> Option<(u16, &[u8])>
    ensures { MatchOption result (BeginsNone count_bytes IsCount bytes.now) (λ x. Begins count_bytes IsCount bytes.now x.0 x.1.now) }
{
    if bytes.len() < 2 {
        return None;
    }
    Some((BigEndian::read_u16(bytes), &bytes[2..]))
}

/// The number of 4 bytes that the bytes begin with, and the rest; `None` exactly where there are fewer.
pub fn read_number(bytes: &[u8]) -> Option<(u32, &[u8])>
    ensures { MatchOption result (BeginsNone number_bytes IsNumber bytes.now) (λ x. Begins number_bytes IsNumber bytes.now x.0 x.1.now) }
{
    if bytes.len() < 4 {
        return None;
    }
    Some((BigEndian::read_u32(bytes), &bytes[4..]))
}

/// Bytes behind their number.
fn read_counted(bytes: &[u8]) -> Option<(&[u8], &[u8])>
    ensures { MatchOption result (BeginsNone counted_bytes AreFew bytes.now) (λ x. Begins counted_bytes AreFew bytes.now x.0.now x.1.now) }
{
    let Some((count, rest)) = bytes.split_first() else {
        return None;
    };
    let count = *count as usize;
    if rest.len() < count {
        return None;
    }
    Some(rest.split_at(count))
}

fn read_name(alloc: Global, bytes: &[u8]) -> Result<Option<(Name, &[u8])>, NoMemory>
    ensures { IfOk result (λ o. MatchOption o (BeginsNone counted_bytes IsName bytes.now) (λ x. Begins counted_bytes IsName bytes.now x.0 x.1.now)) }
{
    let Some((text, rest)) = read_counted(bytes) else {
        return Ok(None);
    };
    let Ok(text) = str::from_utf8(text) else {
        return Ok(None);
    };
    match Name::new(alloc, text)? {
        Some(name) => Ok(Some((name, rest))),
        None => Ok(None),
    }
}

fn read_kind(bytes: &[u8]) -> Option<(Kind, &[u8])>
    ensures { MatchOption result (BeginsNone kind_bytes IsEncodableKind bytes.now) (λ x. Begins kind_bytes IsEncodableKind bytes.now x.0 x.1.now) }
{
    let Some((tag, rest)) = bytes.split_first() else {
        return None;
    };
    let Some((most, rest)) = read_count(rest) else {
        return None;
    };
    match *tag {
        INTEGER => {
            if most != 0 {
                return None;
            }
            Some((Kind::Integer, rest))
        }
        CHAR => Some((Kind::Char(most), rest)),
        VARCHAR => Some((Kind::Varchar(most), rest)),
        _ => None,
    }
}

fn read_flag(bytes: &[u8]) -> Option<(bool, &[u8])>
    ensures { MatchOption result (BeginsNone flag_bytes (λ _. Unit {0}) bytes.now) (λ x. Begins flag_bytes (λ _. Unit {0}) bytes.now x.0 x.1.now) }
{
    let Some((flag, rest)) = bytes.split_first() else {
        return None;
    };
    match *flag {
        0 => Some((false, rest)),
        1 => Some((true, rest)),
        _ => None,
    }
}

fn read_column(alloc: Global, bytes: &[u8]) -> Result<Option<(Column, &[u8])>, NoMemory>
    ensures { IfOk result (λ o. MatchOption o (BeginsNone column_bytes IsEncodableColumn bytes.now) (λ x. Begins column_bytes IsEncodableColumn bytes.now x.0 x.1.now)) }
{
    let Some((name, rest)) = read_name(alloc, bytes)? else {
        return Ok(None);
    };
    let Some((kind, rest)) = read_kind(rest) else {
        return Ok(None);
    };
    let Some((nullable, rest)) = read_flag(rest) else {
        return Ok(None);
    };
    let column = Column {
        name,
        kind,
        nullable,
    };
    Ok(Some((column, rest)))
}

/// That many columns.
fn read_columns(
    alloc: Global,
    count: u8,
    bytes: &[u8],
) -> Result<Option<(Columns, &[u8])>, NoMemory>
    ensures { IfOk result (λ o. MatchOption o (BeginsNone (flat_map column_bytes) (AreColumns count) bytes.now) (λ x. Begins (flat_map column_bytes) (AreColumns count) bytes.now x.0 x.1.now)) }
{
    let mut columns = Items::new(alloc);
    let mut rest = bytes;
    for _i in 0..count {
        match read_column(alloc, rest)? {
            Some((column, behind)) => {
                columns.push(column)?;
                rest = behind;
            }
            None => return Ok(None),
        }
    }
    Ok(Some((columns, rest)))
}

fn read_counted_columns(alloc: Global, bytes: &[u8]) -> Result<Option<(Columns, &[u8])>, NoMemory>
    ensures { IfOk result (λ o. MatchOption o (BeginsNone columns_bytes AreEncodableColumns bytes.now) (λ x. Begins columns_bytes AreEncodableColumns bytes.now x.0 x.1.now)) }
{
    match bytes.split_first() {
        Some((count, rest)) => read_columns(alloc, *count, rest),
        None => Ok(None),
    }
}

/// Numbers of columns.
fn read_ordinals(alloc: Global, bytes: &[u8]) -> Result<Option<(Ordinals, &[u8])>, NoMemory>
    ensures { IfOk result (λ o. MatchOption o (BeginsNone counted_bytes AreFew bytes.now) (λ x. Begins counted_bytes AreFew bytes.now x.0 x.1.now)) }
{
    match read_counted(bytes) {
        Some((numbers, rest)) => {
            let numbers = Items::from_vec(Vec::from_slice(alloc, numbers)?);
            Ok(Some((numbers, rest)))
        }
        None => Ok(None),
    }
}

/// The definition of a table that the bytes begin with, and the rest behind it; `None` exactly where they begin with none.
pub fn read_table(alloc: Global, bytes: &[u8]) -> Result<Option<(TableDef, &[u8])>, NoMemory>
    ensures { IfOk result (λ o. MatchOption o (BeginsNone table_bytes IsEncodableTable bytes.now) (λ x. Begins table_bytes IsEncodableTable bytes.now x.0 x.1.now)) }
{
    let Some((number, rest)) = read_number(bytes) else {
        return Ok(None);
    };
    let Some((name, rest)) = read_name(alloc, rest)? else {
        return Ok(None);
    };
    let Some((columns, rest)) = read_counted_columns(alloc, rest)? else {
        return Ok(None);
    };
    let Some((key, rest)) = read_ordinals(alloc, rest)? else {
        return Ok(None);
    };
    let def = TableDef {
        number,
        name,
        columns,
        key,
    };
    Ok(Some((def, rest)))
}

/// The definition of an index that the bytes begin with, and the rest behind it; `None` exactly where they begin with none.
pub fn read_index(alloc: Global, bytes: &[u8]) -> Result<Option<(IndexDef, &[u8])>, NoMemory>
    ensures { IfOk result (λ o. MatchOption o (BeginsNone index_bytes IsEncodableIndex bytes.now) (λ x. Begins index_bytes IsEncodableIndex bytes.now x.0 x.1.now)) }
{
    let Some((number, rest)) = bytes.split_first() else {
        return Ok(None);
    };
    if *number == 0 {
        return Ok(None);
    }
    let Some((table, rest)) = read_number(rest) else {
        return Ok(None);
    };
    let Some((name, rest)) = read_name(alloc, rest)? else {
        return Ok(None);
    };
    let Some((columns, rest)) = read_ordinals(alloc, rest)? else {
        return Ok(None);
    };
    let index = IndexDef {
        number: *number,
        table,
        name,
        columns,
    };
    Ok(Some((index, rest)))
}

fn read_row(alloc: Global, bytes: &[u8]) -> Result<Option<(Row, &[u8])>, NoMemory>
    ensures { IfOk result (λ o. MatchOption o (BeginsNone row_bytes IsEncodable bytes.now) (λ x. Begins row_bytes IsEncodable bytes.now x.0 x.1.now)) }
{
    match decode(alloc, bytes)? {
        Some((row, len)) => Ok(Some((row, &bytes[len..]))),
        None => Ok(None),
    }
}

/// The change that the bytes begin with, and the rest behind it; `None` exactly where they begin with no change's bytes.
pub fn read_change(alloc: Global, bytes: &[u8]) -> Result<Option<(Change, &[u8])>, NoMemory>
    ensures { IfOk result (λ o. MatchOption o (BeginsNone change_bytes IsEncodableChange bytes.now) (λ x. Begins change_bytes IsEncodableChange bytes.now x.0 x.1.now)) }
{
    let Some((tag, rest)) = bytes.split_first() else {
        return Ok(None);
    };
    let Some((table, rest)) = read_number(rest) else {
        return Ok(None);
    };
    let Some((row, rest)) = read_row(alloc, rest)? else {
        return Ok(None);
    };
    match *tag {
        INSERT => Ok(Some((Change::Insert { table, row }, rest))),
        UPDATE => {
            let Some((after, rest)) = read_row(alloc, rest)? else {
                return Ok(None);
            };
            let change = Change::Update {
                table,
                before: row,
                after,
            };
            Ok(Some((change, rest)))
        }
        DELETE => Ok(Some((Change::Delete { table, before: row }, rest))),
        _ => Ok(None),
    }
}

fn read_schema_change(
    alloc: Global,
    bytes: &[u8],
) -> Result<Option<(SchemaChange, &[u8])>, NoMemory>
    ensures { IfOk result (λ o. MatchOption o (BeginsNone schema_bytes IsEncodableSchema bytes.now) (λ x. Begins schema_bytes IsEncodableSchema bytes.now x.0 x.1.now)) }
{
    let Some((tag, rest)) = bytes.split_first() else {
        return Ok(None);
    };
    match *tag {
        CREATE_TABLE => match read_table(alloc, rest)? {
            Some((def, rest)) => Ok(Some((SchemaChange::CreateTable(def), rest))),
            None => Ok(None),
        },
        DROP_TABLE => match read_number(rest) {
            Some((table, rest)) => Ok(Some((SchemaChange::DropTable { table }, rest))),
            None => Ok(None),
        },
        CREATE_INDEX => match read_index(alloc, rest)? {
            Some((index, rest)) => Ok(Some((SchemaChange::CreateIndex(index), rest))),
            None => Ok(None),
        },
        _ => Ok(None),
    }
}

fn read_entry(alloc: Global, bytes: &[u8]) -> Result<Option<(LogRecord, &[u8])>, NoMemory>
    ensures { IfOk result (λ o. MatchOption o (BeginsNone record_bytes IsEncodableRecord bytes.now) (λ x. Begins record_bytes IsEncodableRecord bytes.now x.0 x.1.now)) }
{
    let Some((tag, rest)) = bytes.split_first() else {
        return Ok(None);
    };
    if *tag == SCHEMA {
        return match read_schema_change(alloc, rest)? {
            Some((change, rest)) => Ok(Some((LogRecord::Schema(change), rest))),
            None => Ok(None),
        };
    }
    let Some((conn, rest)) = read_count(rest) else {
        return Ok(None);
    };
    match *tag {
        CHANGED => match read_change(alloc, rest)? {
            Some((change, rest)) => Ok(Some((LogRecord::Changed { conn, change }, rest))),
            None => Ok(None),
        },
        UNDO_TO => match read_number(rest) {
            Some((count, rest)) => Ok(Some((LogRecord::UndoTo { conn, count }, rest))),
            None => Ok(None),
        },
        COMMIT => Ok(Some((LogRecord::Commit { conn }, rest))),
        ROLLBACK => Ok(Some((LogRecord::Rollback { conn }, rest))),
        _ => Ok(None),
    }
}

/// The record that the bytes begin with, and how many bytes it takes; `None` exactly where they
/// begin with no record's bytes. What follows the record is not looked at.
pub fn read_record(alloc: Global, bytes: &[u8]) -> Result<Option<(LogRecord, usize)>, NoMemory>
    ensures spelled { IfOk result (λ o. IfSome o (λ x. SpellsRecord bytes.now x.0 x.1)) }
    ensures none { IfOk result (λ o. IfNone o (SpellsNoRecord bytes.now)) }
    ensures round_trip { (entry : AnyRecord) → IsEncodableRecord entry → (rest : List ℕ) → bytes.now ≡ record_bytes entry ++ rest → IfOk result (λ o. o ≡ Some (entry, length (record_bytes entry))) }
{
    match read_entry(alloc, bytes)? {
        Some((entry, rest)) => Ok(Some((entry, bytes.len() - rest.len()))),
        None => Ok(None),
    }
}

ghost use Rattle.std.specs.Prelude.{◌≡◌, List, IfOk, IfSome, IfNone, MatchOption};
ghost use Rattle.std.specs.Bool.{OnTrue, OnFalse};
ghost use Rattle.std.specs.Option.{option_copied};
ghost use Rattle.wat_schema.specs.Definitions.{allows};
ghost use Rattle.wat_schema.specs.Tables.{Tables as AnyTables, after_alter, catalog_of};
ghost use Rattle.wat_log_record.specs.declared.log_record.LogRecord.{LogRecord as AnyRecord};
ghost use Rattle.wat_commit_log.specs.Reading.{AreNoRecords, AreRecords, Changes, IsBeforeCommit, Makes, ReadsBody, change_by, is_commit, schema_in};

use crate::pending::CONNECTION;
use std::alloc::Global;
use wat_list::{Items, NoMemory};
use wat_record::{LogRecord, LogRecords, read_record};
use wat_tables::Tables;
use wat_value::{Change, SchemaChange};

/// The records that the bytes are; none where they are no records.
fn read_records(alloc: Global, bytes: &[u8]) -> Result<Option<LogRecords>, NoMemory>
    ensures { IfOk result (λ o. MatchOption o (AreNoRecords bytes.now) (AreRecords bytes.now)) }
{
    let mut records = Items::new(alloc);
    let mut at = 0;
    while at < bytes.len() {
        let Some((record, len)) = read_record(alloc, &bytes[at..])? else {
            return Ok(None);
        };
        records.push(record)?;
        at += len;
    }
    Ok(Some(records))
}

/// The change that the record tells of, where it is one of the connection.
fn change_of(entry: &LogRecord) -> Option<&Change>
    ensures { option_copied result ≡ change_by entry.now }
{
    match entry {
        LogRecord::Changed { conn, change } => (*conn == CONNECTION).then_some(change),
        _ => None,
    }
}

/// Makes the changes of the records; `false` where one is no change by the connection or doesn't apply. The tables are of
/// use after `true` alone.
fn make_changes(tables: &mut Tables, records: &[LogRecord]) -> Result<bool, NoMemory>
    ensures made { IfOk result (λ made. OnTrue made (Changes tables.old records.now tables.new)) }
    ensures none { IfOk result (λ made. OnFalse made ((t : AnyTables) → Changes tables.old records.now t → ⊥)) }
{
    for record in records {
        let Some(change) = change_of(record) else {
            return Ok(false);
        };
        if !tables.change(change)? {
            return Ok(false);
        }
    }
    Ok(true)
}

/// Makes the schema change where it is allowed, and answers whether it is.
fn make_schema(tables: &mut Tables, change: &SchemaChange) -> Result<bool, NoMemory>
    ensures made { IfOk result (λ made. made ≡ allows change.now (catalog_of tables.old)) }
    ensures after { IfOk result (λ made. OnTrue made (tables.new ≡ after_alter change.now tables.old)) }
{
    if !tables.schema().allows(change) {
        return Ok(false);
    }
    tables.alter(change)?;
    Ok(true)
}

/// The schema change, where the records are that of one alone.
fn schema_of(records: &[LogRecord]) -> Option<&SchemaChange>
    ensures { option_copied result ≡ schema_in records.now }
{
    match records {
        [LogRecord::Schema(change)] => Some(change),
        _ => None,
    }
}

fn is_commit(entry: &LogRecord) -> bool
    ensures { result ≡ is_commit entry.now }
{
    match entry {
        LogRecord::Commit { conn } => *conn == CONNECTION,
        _ => false,
    }
}

/// The records before the last one, where that is the connection's Commit and there are some.
fn before_commit(records: &[LogRecord]) -> Option<&[LogRecord]>
    ensures found { IfSome result (λ front. IsBeforeCommit records.now front.now) }
    ensures none { IfNone result ((front : List AnyRecord) → IsBeforeCommit records.now front → ⊥) }
{
    match records.split_last() {
        Some((last, front)) => (is_commit(last) && !front.is_empty()).then_some(front),
        None => None,
    }
}

/// Makes the transaction whose records these are; `false` where they are no transaction's, or one's that doesn't apply. The
/// tables are of use after `true` alone.
fn make_records(tables: &mut Tables, records: &[LogRecord]) -> Result<bool, NoMemory>
    ensures made { IfOk result (λ made. OnTrue made (Makes tables.old records.now tables.new)) }
    ensures none { IfOk result (λ made. OnFalse made ((t : AnyTables) → Makes tables.old records.now t → ⊥)) }
{
    if let Some(change) = schema_of(records) {
        return make_schema(tables, change);
    }
    match before_commit(records) {
        Some(changes) => make_changes(tables, changes),
        None => Ok(false),
    }
}

/// Makes the transaction that a frame's body holds; `false` where it holds none, or one that doesn't apply. The tables are
/// of use after `true` alone.
pub(crate) fn read_body(alloc: Global, body: &[u8], tables: &mut Tables) -> Result<bool, NoMemory>
    ensures read { IfOk result (λ read. OnTrue read (ReadsBody tables.old body.now tables.new)) }
    ensures none { IfOk result (λ read. OnFalse read ((t : AnyTables) → ReadsBody tables.old body.now t → ⊥)) }
{
    match read_records(alloc, body)? {
        Some(records) => make_records(tables, records.as_slice()),
        None => Ok(false),
    }
}

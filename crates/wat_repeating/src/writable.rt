// Which records a log can have.
ghost use Rattle.std.specs.Prelude.{◌↔◌, IsTrue};
ghost use Rattle.wat_log_record.specs.Encoding.{IsWritable, IsWritableChange, IsWritableSchema};

use wat_log_record::LogRecord;
use wat_value::{Change, SchemaChange, is_short};

fn is_change_writable(change: &Change) -> bool
    ensures { IsTrue result ↔ IsWritableChange change.now }
{
    match change {
        Change::Insert { row, .. } => is_short(row),
        Change::Update { before, after, .. } => is_short(before) && is_short(after),
        Change::Delete { before, .. } => is_short(before),
    }
}

fn is_schema_writable(change: &SchemaChange) -> bool
    ensures { IsTrue result ↔ IsWritableSchema change.now }
{
    match change {
        SchemaChange::CreateTable(def) => def.columns.len() < 256 && def.key.len() < 256,
        SchemaChange::DropTable { .. } => true,
        SchemaChange::CreateIndex(index) => index.number >= 1 && index.columns.len() < 256,
    }
}

/// Whether the record's numbers and texts fit their places in a log.
pub(crate) fn is_writable(entry: &LogRecord) -> bool
    ensures { IsTrue result ↔ IsWritable entry.now }
{
    match entry {
        LogRecord::Changed { change, .. } => is_change_writable(change),
        LogRecord::Schema(change) => is_schema_writable(change),
        LogRecord::UndoTo { .. } => true,
        LogRecord::Commit { .. } => true,
        LogRecord::Rollback { .. } => true,
    }
}

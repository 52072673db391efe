use std::alloc::Global;
use wat_list::{Copied, Items, NoMemory};
use wat_value::{Change, SchemaChange};

/// What the transaction log tells of one step. Records stand in the order in which the steps were made.
#[derive(Debug, Drop)]
pub enum LogRecord {
    /// The connection changed a row.
    Changed { conn: u16, change: Change },
    /// The first `count` of the connection's changes stay, and the later ones were undone.
    UndoTo { conn: u16, count: u32 },
    /// The connection's changes stay for good.
    Commit { conn: u16 },
    /// The connection's changes were undone.
    Rollback { conn: u16 },
    /// The schema was changed, while no connection had changes.
    Schema(SchemaChange),
}

pub type LogRecords = Items<LogRecord>;

impl Copied for LogRecord {
    fn copy(&self, alloc: Global) -> Result<Self, NoMemory> {
        match self {
            LogRecord::Changed { conn, change } => {
                let change = change.copy(alloc)?;
                Ok(LogRecord::Changed {
                    conn: *conn,
                    change,
                })
            }
            LogRecord::UndoTo { conn, count } => Ok(LogRecord::UndoTo {
                conn: *conn,
                count: *count,
            }),
            LogRecord::Commit { conn } => Ok(LogRecord::Commit { conn: *conn }),
            LogRecord::Rollback { conn } => Ok(LogRecord::Rollback { conn: *conn }),
            LogRecord::Schema(change) => {
                let change = change.copy(alloc)?;
                Ok(LogRecord::Schema(change))
            }
        }
    }
}

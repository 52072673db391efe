use wat_cycle::Edges;
use wat_disk::FileId;
use wat_locks::Against;
use wat_schema::Refusal;
use wat_value::Rows;

/// What a statement that was done gives.
#[derive(Debug, Drop)]
pub enum Reply {
    /// The rows of a SELECT, in their order.
    Rows(Rows),
    /// How many rows were inserted.
    Inserted(u64),
    /// How many rows were updated.
    Updated(u64),
    /// How many rows were deleted.
    Deleted(u64),
    /// A table or an index was created, by the commit of this number.
    Created(u64),
    /// A table was dropped, by the commit of this number.
    Dropped(u64),
    /// The number of the commit. Those of a session count from 1.
    Committed(u64),
    /// No transaction was open.
    NothingToCommit,
    RolledBack,
    Savepoint,
    BackToSavepoint,
    Released,
    Checkpointed,
    OptionSet,
}

/// Why a session stopped.
#[derive(Clone, Copy, Debug, PartialEq, Eq)]
pub enum Reason {
    /// The disk failed.
    DiskFault,
    /// A file is not what the database left; the place where it goes wrong is counted in bytes.
    Damaged { file: FileId, at: u64 },
    /// A page was needed, none was free, and the file had as many as it may have.
    PageLimit { count: u32, limit: u32 },
    /// Memory ran out.
    Memory,
}

/// The answer to a statement.
#[derive(Debug, Drop)]
pub enum Answer {
    /// It was done.
    Given(Reply),
    /// It was refused, and changed no row.
    Refused(Refusal),
    /// Another connection holds a lock in conflict, and the statement was not to wait for it.
    Locked(Against),
    /// Waiting would have closed this cycle of connections that wait for one another. It begins with
    /// the connection that is answered so, whose transaction is rolled back.
    Deadlock { cycle: Edges },
    /// A schema statement found transactions open; the least connection that has one.
    OpenTransaction { conn: u16 },
    /// A statement that is not served yet.
    Unsupported,
    /// The session stopped, at this statement or before it.
    Stopped { reason: Reason },
}

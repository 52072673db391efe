use crate::answer::{Answer, Reason};
use crate::script::ScriptList;
use std::alloc::Global;
use wat_list::{Copied, Items, NoMemory, Reserved};
use wat_value::{Acts, Name};

/// A statement's answer, with the place of its text in the script: the bytes from `from` on, up to
/// the one before `to`.
#[derive(Debug, Drop)]
pub struct Entry {
    pub from: u32,
    pub to: u32,
    /// The isolation level at which it ran, from 0 to 3.
    pub level: u8,
    pub answer: Answer,
    /// What it did to the tables and did not undo. Of ROLLBACK TO SAVEPOINT they are the inverses of
    /// the changes that it undid, the last one first, so that the acts of a transaction's entries in
    /// their order are its effect.
    pub acts: Acts,
}

/// The answers of one connection, in the order of its script. Its room may be taken ahead of time,
/// so that an entry asks for no memory.
pub type Transcript = Reserved<Entry>;

/// The transcripts of the connections, from connection 1 on.
pub type Transcripts = Items<Transcript>;

/// The disk's moments at which the commits were acknowledged, from commit 1 on, with room as in a
/// transcript.
pub type Moments = Reserved<u64>;

/// What a table and its indexes are called. A number names one table for good, so the names of a
/// table that was dropped are kept too.
#[derive(Debug, Drop)]
pub struct TableName {
    pub number: u32,
    pub name: Name,
    /// The names of its indexes, from index 1 on. Index 0 is the primary key, which has no name.
    pub indexes: Items<Name>,
}

/// The names of tables.
pub type TableNames = Items<TableName>;

/// What the connections were asked and answered.
#[derive(Debug, Drop)]
pub struct Session {
    pub scripts: ScriptList,
    pub transcripts: Transcripts,
    pub moments: Moments,
    /// Why the session stopped, if it did.
    pub stop: Option<Reason>,
    /// The names of the tables that stood when the session began, and of those that it created.
    pub names: TableNames,
}

impl Copied for TableName {
    fn copy(&self, alloc: Global) -> Result<Self, NoMemory> {
        let name = self.name.copy(alloc)?;
        let indexes = self.indexes.copy(alloc)?;
        Ok(TableName {
            number: self.number,
            name,
            indexes,
        })
    }
}

impl Session {
    ghost use Rattle.std.specs.Prelude.{◌≡◌, [], None};

    /// The session in which nothing was asked.
    pub fn new(alloc: Global) -> Self
        ensures scripts { result.scripts ≡ [] }
        ensures transcripts { result.transcripts ≡ [] }
        ensures moments { result.moments.items ≡ [] }
        ensures stop { result.stop ≡ None }
        ensures names { result.names ≡ [] }
    {
        Session {
            scripts: Items::new(alloc),
            transcripts: Items::new(alloc),
            moments: Reserved::new(alloc),
            stop: None,
            names: Items::new(alloc),
        }
    }
}

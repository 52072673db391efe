ghost use Rattle.std.specs.Prelude.{◌≡◌, refl, IfOk, OnOk, Some};
ghost use Rattle.wat_log_record.specs.Encoding.{IsWritable};
ghost use Rattle.wat_schema.specs.Tables.{Tables};
ghost use Rattle.wat_replay.specs.State.{State, IsLawful, no_lists, undone};
ghost use Rattle.wat_recover.specs.Goes.{Answers};
ghost use Rattle.wat_recover.specs.Listed.{lists_of};
ghost use Rattle.wat_recover.specs.Machine.{state_of};

use crate::applying::apply_to;
use crate::change_lists::ChangeLists;
use crate::tables::RowTables;
use crate::target::{Target, TargetError};
use crate::undoing::undo_on;
use std::alloc::{AllocError, Global};
use wat_list::NoMemory;
use wat_log_record::LogRecord;
use wat_schema::Schema;
use wat_value::{Change, Key, Row, SchemaChange};

/// Tables in memory, and the changes of each connection that stand. After want of memory it is not used again.
#[derive(Drop)]
pub struct Machine<T> {
    tables: T,
    lists: ChangeLists,
}

impl<T: RowTables> Machine<T> {
    pub fn new(tables: T, lists: ChangeLists) -> Self
        ensures { state_of T.tables result ≡ record { tables = T.tables tables; lists = lists_of lists } }
    {
        Machine { tables, lists }
    }

    /// The tables with all changes that stand.
    pub fn tables(&self) -> &T
        ensures { T.tables result.now ≡ (state_of T.tables self.now).tables }
    {
        &self.tables
    }

    /// Makes the record where it applies, and answers whether it does. Where it doesn't, nothing has changed.
    pub fn apply(&mut self, alloc: Global, entry: &LogRecord) -> Result<bool, NoMemory>
        requires { IsWritable entry.now }
        ensures { IsLawful (state_of T.tables self.old) → IfOk result (λ applied. Answers (λ s. state_of T.tables self.new ≡ s) entry.now (state_of T.tables self.old) applied) }
    {
        match apply_to(alloc, self, entry) {
            Ok(applied) => Ok(applied),
            Err(_) => Err(AllocError),
        }
    }

    /// Undoes the changes of all connections, in the order of their numbers.
    pub fn undo_all(&mut self) -> Result<(), NoMemory>
        ensures { (t : Tables) → IsLawful (state_of T.tables self.old) → undone (state_of T.tables self.old) ≡ Some t
            → OnOk result (state_of T.tables self.new ≡ record { tables = t; lists = no_lists }) }
    {
        match undo_on(self) {
            Ok(()) => Ok(()),
            Err(_) => Err(AllocError),
        }
    }
}

impl<T: RowTables> Target for Machine<T> {
    ghost stands_for = { λ m s. state_of T.tables m ≡ s };

    ghost goes = { λ _ _. Unit {0} };

    ghost failures = { λ _. 0 };

    fn schema(&self) -> &Schema {
        self.tables.schema()
    }

    fn row(&mut self, table: u32, key: &Key) -> Result<Option<Row>, TargetError> {
        let row = self.tables.row(table, key)?;
        Ok(row)
    }

    fn make(&mut self, change: &Change) -> Result<(), TargetError> {
        self.tables.change(change)?;
        Ok(())
    }

    fn alter(&mut self, change: &SchemaChange) -> Result<(), TargetError> {
        if self.tables.schema().allows(change) {
            self.tables.alter(change)?;
        }
        Ok(())
    }

    fn push(&mut self, conn: u16, change: Change) -> Result<(), TargetError> {
        self.lists.push(conn, change)?;
        Ok(())
    }

    fn pop(&mut self, conn: u16) -> Option<Change> {
        self.lists.pop(conn)
    }

    fn count(&self, conn: u16) -> u32 {
        self.lists.count(conn)
    }

    fn next_open(&self, from: u32) -> Option<u16> {
        self.lists.next_open(from)
    }

    fn changed_by_other(&self, conn: u16, table: u32, key: &Key) -> bool {
        self.lists
            .changed_by_other(self.tables.schema(), conn, table, key)
    }

    ghost still = { λ _. tt };

    ghost goes_on = { λ _ _ _ _ _. tt };
}

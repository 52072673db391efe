// The state that the records of a log reach, with what each connection has not yet committed.
ghost use Rattle.std.specs.Prelude.{◌≡◌, ◌<◌, ◌∷◌, [], length, map, take, IfOk, OnOk};
ghost use Rattle.std.specs.Option.{option_to_list};
ghost use Rattle.wat_value.specs.declared.change.Change.{Change as AnyChange};
ghost use Rattle.wat_value.specs.declared.change.Act.TheVariants.{OnRow as on_row};
ghost use Rattle.wat_schema.specs.Tables.{catalog_of};
ghost use Rattle.wat_log_record.specs.Encoding.{IsWritable};
ghost use Rattle.wat_replay.specs.State.{State, IsLawful, empty_state, with_list};
ghost use Rattle.wat_replay.specs.Replay.{lists_after};
ghost use Rattle.wat_recover.specs.Goes.{Answers, Popped};
ghost use Rattle.wat_undo.specs.Kept.{lists_of};
ghost use Rattle.wat_translated.specs.Translated.{transaction};

use std::alloc::Global;
use wat_list::{Copied, Items, NoMemory};
use wat_log_record::LogRecord;
use wat_machine::{MemoryTables, new_machine};
use wat_recover::Machine;
use wat_schema::Schema;
use wat_undo::Undo;
use wat_value::{Act, Acts, SchemaChange};

/// The tables with the changes that stand, and of each connection the changes that it may still commit.
#[derive(Drop)]
pub(crate) struct Reader {
    alloc: Global,
    machine: Machine<MemoryTables>,
    standing: Undo,
}

/// The transaction of one change of the schema.
fn alone(alloc: Global, change: &SchemaChange) -> Result<Acts, NoMemory>
    ensures { IfOk result (λ acts. acts ≡ Act.OnSchema change.now ∷ []) }
{
    let mut acts = Items::new(alloc);
    acts.push(Act::OnSchema(change.copy(alloc)?))?;
    Ok(acts)
}

impl Reader {
    ghost use Rattle.wat_translate.specs.Reading.{IsAt};

    /// Before the first record.
    pub(crate) fn new(alloc: Global) -> Result<Reader, NoMemory>
        ensures { IfOk result (λ reader. IsAt reader empty_state) }
    {
        let machine = new_machine(alloc)?;
        Ok(Reader {
            alloc,
            machine,
            standing: Undo::new(alloc),
        })
    }

    pub(crate) fn schema(&self) -> &Schema
        ensures { (s : State) → IsAt self.now s → result.now ≡ catalog_of s.tables }
    {
        use wat_recover::RowTables;
        self.machine.tables().schema()
    }

    /// The changes that the connection may still commit, the oldest first.
    fn changes(&self, conn: u16) -> Result<Acts, NoMemory>
        ensures { IfOk result (λ acts. acts ≡ map on_row (lists_of self.now.standing conn)) }
    {
        let mut acts = Items::new(self.alloc);
        for i in 0..self.standing.count(conn) {
            acts.push(Act::OnRow(self.standing.change(conn, i).copy(self.alloc)?))?;
        }
        Ok(acts)
    }

    /// The transaction that the record commits, if it commits one.
    pub(crate) fn transaction(&self, entry: &LogRecord) -> Result<Option<Acts>, NoMemory>
        ensures { IfOk result (λ acts. option_to_list acts ≡ transaction entry.now (lists_of self.now.standing)) }
    {
        match entry {
            LogRecord::Commit { conn } => {
                if self.standing.count(*conn) == 0 {
                    return Ok(None);
                }
                Ok(Some(self.changes(*conn)?))
            }
            LogRecord::Schema(change) => Ok(Some(alone(self.alloc, change)?)),
            _ => Ok(None),
        }
    }

    /// Takes the last change of the connection away.
    fn take_last(&mut self, conn: u16)
        ensures popped { 0 < length (lists_of self.old.standing conn) → (change : AnyChange) × Popped conn change (lists_of self.old.standing) (lists_of self.new.standing) }
        ensures machine { self.new.machine ≡ self.old.machine }
    {
        self.standing.pop(conn);
    }

    /// Leaves the first changes of the connection, and takes away the others.
    fn shorten(&mut self, conn: u16, count: u32)
        ensures cut { lists_of self.new.standing ≡ with_list conn (take count (lists_of self.old.standing conn)) (lists_of self.old.standing) }
        ensures machine { self.new.machine ≡ self.old.machine }
    {
        while self.standing.count(conn) > count {
            self.take_last(conn);
        }
    }

    /// Notes what the record makes of the changes that may still be committed.
    fn note(&mut self, entry: &LogRecord) -> Result<(), NoMemory>
        requires { IsWritable entry.now }
        ensures noted { OnOk result (lists_of self.new.standing ≡ lists_after entry.now (lists_of self.old.standing)) }
        ensures machine { self.new.machine ≡ self.old.machine }
    {
        match entry {
            LogRecord::Changed { conn, change } => {
                self.standing.push(*conn, change.copy(self.alloc)?)?;
            }
            LogRecord::UndoTo { conn, count } => self.shorten(*conn, *count),
            LogRecord::Commit { conn } | LogRecord::Rollback { conn } => self.shorten(*conn, 0),
            LogRecord::Schema(_) => {}
        }
        Ok(())
    }

    /// Makes the record where it applies, and answers whether it does.
    pub(crate) fn apply(&mut self, entry: &LogRecord) -> Result<bool, NoMemory>
        requires { IsWritable entry.now }
        ensures { (s : State) → IsAt self.old s → IsLawful s → IfOk result (λ applied. Answers (IsAt self.new) entry.now s applied) }
    {
        if !self.machine.apply(self.alloc, entry)? {
            return Ok(false);
        }
        self.note(entry)?;
        Ok(true)
    }
}

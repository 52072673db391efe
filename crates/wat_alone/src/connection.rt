ghost use Rattle.std.specs.Prelude.{◌≡◌, ◌+◌, ◌<◌, ◌^◌, ◌++◌, [], All, None, Some, OnOk, IfOk, IsTrue, ◌↔◌, IsSome, true, if◌then◌else◌};
ghost use Rattle.wat_meaning.specs.Meaning.{has_meaning, meaning};
ghost use Rattle.wat_commit_log.specs.Pending.{IsWritableAct, changes_in, fit};
ghost use Rattle.wat_alone.specs.Alone.{alone_turn, answer_saying, begun, change_turn, commit_turn, is_refused, pending, rollback_turn, schema_turn, turn_of};

use crate::making::{make_all, take_back};
use std::alloc::Global;
use std::marker::Model;
use wat_ast::Statement;
use wat_commit_log::Pending;
use wat_conn::{Answer, Reply};
use wat_list::{Items, NoMemory};
use wat_meaning::{Meaning, Reply as Meant};
use wat_serial::meaning;
use wat_tables::Tables;
use wat_value::{Act, Acts};

/// The number of the connection.
const CONNECTION: u16 = 1;

/// What came of a statement.
#[derive(Drop)]
pub struct Turned {
    pub answer: Answer,
    pub acts: Acts,
    /// The changes of the transaction that it commits.
    pub commits: Option<Pending>,
}

/// The tables with the changes of the open transaction. Contracts see the state that the definition of turns speaks of.
///
/// After want of memory it is not used again.
#[derive(Drop)]
pub struct Connection {
    tables: Tables,
    changes: Option<Pending>,
    commits: u64,
}

impl Model for Connection {
    ghost use Rattle.wat_alone.specs.Alone.{State};

    ghost Value = { State };

    ghost view = { λ c. record { tables = c.tables; changes = c.changes; commits = c.commits } };
}

fn without_acts(alloc: Global, answer: Answer) -> Turned
    ensures answer { result.answer ≡ answer }
    ensures acts { result.acts ≡ [] }
    ensures commits { result.commits ≡ None }
{
    Turned {
        answer,
        acts: Items::new(alloc),
        commits: None,
    }
}

fn is_refused(reply: &Meant) -> bool
    ensures { result ≡ is_refused reply.now }
{
    matches!(reply, Meant::Refused(_))
}

/// The answer that says the reply of meaning.
fn answer_saying(number: u64, reply: Meant) -> Answer
    ensures { result ≡ answer_saying number reply }
{
    match reply {
        Meant::Rows(rows) => Answer::Given(Reply::Rows(rows)),
        Meant::Inserted(count) => Answer::Given(Reply::Inserted(count)),
        Meant::Updated(count) => Answer::Given(Reply::Updated(count)),
        Meant::Deleted(count) => Answer::Given(Reply::Deleted(count)),
        Meant::Created => Answer::Given(Reply::Created(number)),
        Meant::Dropped => Answer::Given(Reply::Dropped(number)),
        Meant::Refused(refusal) => Answer::Refused(refusal),
    }
}

/// What the statement means over the tables. Its acts can be written.
#[tactic(auto, using(crate::proofs::Writable::meant_writable))]
fn meant(alloc: Global, tables: &Tables, statement: &Statement) -> Result<Meaning, NoMemory>
    requires { has_meaning statement.now ≡ true }
    ensures meant { IfOk result (λ m. m ≡ meaning tables.now statement.now) }
    ensures writable { IfOk result (λ m. All IsWritableAct m.acts) }
{
    tables.tables_law();
    meaning(alloc, statement, tables)
}

impl Connection {
    /// Over these tables, with no transaction open.
    pub fn new(tables: Tables) -> Self
        ensures { result ≡ begun tables }
    {
        Connection {
            tables,
            changes: None,
            commits: 0,
        }
    }

    pub fn tables(&self) -> &Tables
        ensures { result.now ≡ self.now.tables }
    {
        &self.tables
    }

    /// A transaction is open.
    pub fn is_open(&self) -> bool
        ensures { IsTrue result ↔ IsSome self.now.changes }
    {
        self.changes.is_some()
    }

    /// Notes the changes among the acts in the open transaction, or one that it opens, and answers whether they fit in it.
    fn note(&mut self, alloc: Global, acts: &[Act]) -> Result<bool, NoMemory>
        requires { All IsWritableAct acts.now }
        ensures fit { IfOk result (λ noted. noted ≡ fit (pending self.old ++ changes_in acts.now)) }
        ensures noted { IfOk result (λ noted. self.new ≡ (if noted then record self.old { changes = Some (pending self.old ++ changes_in acts.now) } else self.old)) }
    {
        match &mut self.changes {
            Some(changes) => changes.add(alloc, acts),
            None => {
                let mut changes = Pending::new(alloc)?;
                if !changes.add(alloc, acts)? {
                    return Ok(false);
                }
                self.changes = Some(changes);
                Ok(true)
            }
        }
    }

    /// Does what an INSERT, UPDATE, DELETE or SELECT means.
    fn change(&mut self, alloc: Global, meant: Meaning) -> Result<Turned, NoMemory>
        requires { All IsWritableAct meant.acts }
        ensures answer { IfOk result (λ turned. turned.answer ≡ (change_turn self.old meant).answer) }
        ensures acts { IfOk result (λ turned. turned.acts ≡ (change_turn self.old meant).acts) }
        ensures commits { IfOk result (λ turned. turned.commits ≡ None) }
        ensures writable { IfOk result (λ turned. All IsWritableAct turned.acts) }
        ensures next { OnOk result (self.new ≡ (change_turn self.old meant).next) }
    {
        let Meaning { answer, acts } = meant;
        if !self.note(alloc, acts.as_slice())? {
            return Ok(without_acts(alloc, Answer::Unsupported));
        }
        make_all(&mut self.tables, acts.as_slice())?;
        Ok(Turned {
            answer: answer_saying(0, answer),
            acts,
            commits: None,
        })
    }

    fn change_rows(&mut self, alloc: Global, statement: &Statement) -> Result<Turned, NoMemory>
        requires { has_meaning statement.now ≡ true }
        ensures answer { IfOk result (λ turned. turned.answer ≡ (change_turn self.old (meaning self.old.tables statement.now)).answer) }
        ensures acts { IfOk result (λ turned. turned.acts ≡ (change_turn self.old (meaning self.old.tables statement.now)).acts) }
        ensures commits { IfOk result (λ turned. turned.commits ≡ None) }
        ensures writable { IfOk result (λ turned. All IsWritableAct turned.acts) }
        ensures next { OnOk result (self.new ≡ (change_turn self.old (meaning self.old.tables statement.now)).next) }
    {
        let meant = meant(alloc, &self.tables, statement)?;
        self.change(alloc, meant)
    }

    /// Does what a CREATE or DROP means.
    fn alter(&mut self, alloc: Global, meant: Meaning) -> Result<Turned, NoMemory>
        requires commits { self.old.commits + 1 < 2 ^ 64 }
        requires writable { All IsWritableAct meant.acts }
        ensures answer { IfOk result (λ turned. turned.answer ≡ (schema_turn self.old meant).answer) }
        ensures acts { IfOk result (λ turned. turned.acts ≡ (schema_turn self.old meant).acts) }
        ensures commits { IfOk result (λ turned. turned.commits ≡ None) }
        ensures writable { IfOk result (λ turned. All IsWritableAct turned.acts) }
        ensures next { OnOk result (self.new ≡ (schema_turn self.old meant).next) }
    {
        let Meaning { answer, acts } = meant;
        if is_refused(&answer) {
            return Ok(without_acts(alloc, answer_saying(0, answer)));
        }
        make_all(&mut self.tables, acts.as_slice())?;
        self.commits += 1;
        Ok(Turned {
            answer: answer_saying(self.commits, answer),
            acts,
            commits: None,
        })
    }

    fn alter_alone(&mut self, alloc: Global, statement: &Statement) -> Result<Turned, NoMemory>
        requires commits { self.old.commits + 1 < 2 ^ 64 }
        requires meaning { has_meaning statement.now ≡ true }
        ensures answer { IfOk result (λ turned. turned.answer ≡ (alone_turn self.old statement.now).answer) }
        ensures acts { IfOk result (λ turned. turned.acts ≡ (alone_turn self.old statement.now).acts) }
        ensures commits { IfOk result (λ turned. turned.commits ≡ None) }
        ensures writable { IfOk result (λ turned. All IsWritableAct turned.acts) }
        ensures next { OnOk result (self.new ≡ (alone_turn self.old statement.now).next) }
    {
        if self.is_open() {
            return Ok(without_acts(alloc, Answer::OpenTransaction { conn: CONNECTION }));
        }
        let meant = meant(alloc, &self.tables, statement)?;
        self.alter(alloc, meant)
    }

    /// Takes back what the open transaction has changed.
    fn roll_back(&mut self, alloc: Global) -> Result<Turned, NoMemory>
        ensures answer { IfOk result (λ turned. turned.answer ≡ (rollback_turn self.old).answer) }
        ensures acts { IfOk result (λ turned. turned.acts ≡ []) }
        ensures commits { IfOk result (λ turned. turned.commits ≡ None) }
        ensures next { OnOk result (self.new ≡ (rollback_turn self.old).next) }
    {
        match self.changes.take() {
            Some(changes) => take_back(&mut self.tables, changes.into_changes())?,
            None => {}
        }
        Ok(without_acts(alloc, Answer::Given(Reply::RolledBack)))
    }

    /// Commits the open transaction, whose changes are given out.
    fn commit(&mut self, alloc: Global) -> Turned
        requires { self.old.commits + 1 < 2 ^ 64 }
        ensures answer { result.answer ≡ (commit_turn self.old self.old.changes).answer }
        ensures acts { result.acts ≡ [] }
        ensures commits { result.commits ≡ (commit_turn self.old self.old.changes).commits }
        ensures next { self.new ≡ (commit_turn self.old self.old.changes).next }
    {
        match self.changes.take() {
            Some(changes) => {
                self.commits += 1;
                Turned {
                    answer: Answer::Given(Reply::Committed(self.commits)),
                    acts: Items::new(alloc),
                    commits: Some(changes),
                }
            }
            None => without_acts(alloc, Answer::Given(Reply::NothingToCommit)),
        }
    }

    /// Answers a statement, and does what it means: all but the disk's part.
    pub fn answer(&mut self, alloc: Global, statement: &Statement) -> Result<Turned, NoMemory>
        requires { self.old.commits + 1 < 2 ^ 64 }
        ensures answer { IfOk result (λ turned. turned.answer ≡ (turn_of self.old statement.now).answer) }
        ensures acts { IfOk result (λ turned. turned.acts ≡ (turn_of self.old statement.now).acts) }
        ensures commits { IfOk result (λ turned. turned.commits ≡ (turn_of self.old statement.now).commits) }
        ensures next { OnOk result (self.new ≡ (turn_of self.old statement.now).next) }
        // The acts can be written to the log.
        ensures writable { IfOk result (λ turned. All IsWritableAct turned.acts) }
    {
        match statement {
            Statement::CreateTable { .. } => self.alter_alone(alloc, statement),
            Statement::CreateIndex { .. } => self.alter_alone(alloc, statement),
            Statement::DropTable { .. } => self.alter_alone(alloc, statement),
            Statement::Insert { .. } => self.change_rows(alloc, statement),
            Statement::Update { .. } => self.change_rows(alloc, statement),
            Statement::Delete { .. } => self.change_rows(alloc, statement),
            Statement::Select(_) => self.change_rows(alloc, statement),
            Statement::Commit => Ok(self.commit(alloc)),
            Statement::Rollback => self.roll_back(alloc),
            Statement::RollbackTo { .. }
            | Statement::Savepoint { .. }
            | Statement::Release { .. }
            | Statement::Checkpoint
            | Statement::SetLevel(_)
            | Statement::SetBlocking(_) => Ok(without_acts(alloc, Answer::Unsupported)),
        }
    }
}

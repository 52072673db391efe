ghost use Rattle.std.specs.Prelude.{◌≡◌, ◌≤◌, ◌<◌, ◌^◌, ◌++◌, ◌↔◌, [], length, true, false, Some, None, unwrap_or, is_some, IsTrue, IfOk, OnOk, OnErr};
ghost use Rattle.std.specs.Option.{option_map, option_map_or, option_copied};
ghost use Rattle.wat_conn.specs.declared.answer.Answer.TheVariants.{Stopped};
ghost use Rattle.wat_history.specs.Connection.{back_from};
ghost use Rattle.wat_steps.specs.Answering.{with_answer};
ghost use Rattle.wat_steps.specs.Fresh.{asked};
ghost use Rattle.wat_steps.specs.Statements.{with_savepoint};
ghost use Rattle.wat_connection.specs.Reading.{next_reading};
ghost use Rattle.wat_connection.specs.Transactions.{GoesBackIn, ReleasesIn, transaction_in, with_open};

use crate::reading::{Reading, read};
use crate::transaction::{Transaction, Undone};
use std::alloc::Global;
use std::marker::Model;
use wat_conn::{Answer, Entry, Reason, Script, Transcript};
use wat_exec::Run;
use wat_list::{Items, NoMemory, Reserved};
use wat_locks::Wants;
use wat_name::Name;
use wat_parse::{Spans, statements};
use wat_value::{Acts, Change};

/// What a connection was asked, and what it was answered.
#[derive(Drop)]
pub struct Closed {
    pub script: Script,
    pub transcript: Transcript,
}

/// A connection: what it is asked, has been answered and has under way. Contracts see the state that the definition of steps
/// speaks of.
///
/// The room of all entries is taken when it is made, so that no answer takes memory.
#[derive(Drop)]
pub struct Connection {
    script: Script,
    spans: Spans,
    answered: usize,
    transcript: Transcript,
    level: u8,
    blocking: bool,
    transaction: Option<Transaction>,
    work: Option<Run>,
    request: Option<Wants>,
    has_ended: bool,
}

impl Model for Connection {
    ghost use Rattle.std.specs.Prelude.{drop};
    ghost use Rattle.std.specs.Option.{option_map};
    ghost use Rattle.std.specs.Coded.{codes};
    ghost use Rattle.wat_ast.specs.contracts.expression.Expr as e;
    ghost use Rattle.wat_steps.specs.State.{ConnectionState};
    ghost use Rattle.wat_connection.specs.Room.{HasRoom};

    ghost Value = { ConnectionState };

    ghost coded = { Prim.hlevel (codes, e.the_row.coded) };

    ghost view = { λ c. record { script = c.script; left = drop c.answered c.spans; transcript = c.transcript.items; level = c.level; blocking = c.blocking; transaction = c.transaction; work = option_map (λ r. r.run) c.work; request = c.request; has_ended = c.has_ended } };

    ghost invariant = { λ c. HasRoom c.script c.spans c.answered c.transcript.spare };
}

impl Connection {
    /// A connection that has this script before it, of at most 16,777,216 bytes.
    pub fn new(alloc: Global, script: Script) -> Result<Self, NoMemory>
        requires { length script ≤ 16777216 }
        ensures { IfOk result (λ connection. connection ≡ asked script) }
    {
        let spans = statements(alloc, script.as_str())?;
        let transcript = Reserved::with_room(alloc, spans.len())?;
        Ok(Connection {
            script,
            spans,
            answered: 0,
            transcript,
            level: 0,
            blocking: true,
            transaction: None,
            work: None,
            request: None,
            has_ended: false,
        })
    }

    /// The isolation level, which holds for the statements that are left.
    pub fn level(&self) -> u8
        ensures { result ≡ self.now.level }
    {
        self.level
    }

    /// Whether it waits for locks, instead of being told that another connection holds them.
    pub fn is_blocking(&self) -> bool
        ensures { result ≡ self.now.blocking }
    {
        self.blocking
    }

    pub fn has_transaction(&self) -> bool
        ensures { result ≡ is_some self.now.transaction }
    {
        self.transaction.is_some()
    }

    /// The locks that it waits for.
    pub fn request(&self) -> Option<&Wants>
        ensures { option_copied result ≡ self.now.request }
    {
        self.request.as_ref()
    }

    pub fn has_ended(&self) -> bool
        ensures { result ≡ self.now.has_ended }
    {
        self.has_ended
    }

    /// How many changes of its open transaction stand; none where no transaction is open.
    pub fn standing(&self) -> u32
        ensures { result ≡ length (transaction_in self.now).standing }
    {
        match &self.transaction {
            Some(transaction) => transaction.standing().len() as u32,
            None => 0,
        }
    }

    /// Reads the first of the statements that are left.
    pub fn read_next(&self, alloc: Global) -> Result<Reading, NoMemory>
        ensures { IfOk result (λ reading. reading ≡ next_reading self.now.script self.now.left) }
    {
        if self.answered < self.spans.len() {
            let span = self.spans.as_slice()[self.answered];
            return read(alloc, self.script.as_str(), span);
        }
        Ok(Reading::End)
    }

    /// Adds the entry of the first of the statements that are left.
    fn add_entry(&mut self, answer: Answer, acts: Acts)
        ensures { self.new ≡ with_answer self.old.left self.old answer acts }
    {
        if self.answered < self.spans.len() {
            let span = self.spans.as_slice()[self.answered];
            self.transcript.push(Entry {
                from: span.from,
                to: span.to,
                level: self.level,
                answer,
                acts,
            });
            self.answered += 1;
        }
    }

    fn forget_request(&mut self)
        ensures { self.new ≡ record self.old { request = None } }
    {
        self.request = None;
    }

    /// Answers the first of the statements that are left. It is under way no longer, and waits for nothing.
    pub fn answer(&mut self, answer: Answer, acts: Acts)
        ensures { self.new ≡ record (with_answer self.old.left self.old answer acts) { work = None; request = None } }
    {
        self.add_entry(answer, acts);
        self.work = None;
        self.forget_request();
    }

    /// Answers the first of the statements that are left where the session has stopped. All else stays as it is.
    pub fn answer_stopped(&mut self, alloc: Global, reason: Reason)
        ensures { self.new ≡ with_answer self.old.left self.old (Stopped reason) [] }
    {
        self.add_entry(Answer::Stopped { reason }, Items::new(alloc));
    }

    /// The level of the statements from the next one on.
    pub fn set_level(&mut self, level: u8)
        ensures { self.new ≡ record self.old { level = level } }
    {
        self.level = level;
    }

    pub fn set_blocking(&mut self, blocking: bool)
        ensures { self.new ≡ record self.old { blocking = blocking } }
    {
        self.blocking = blocking;
    }

    /// A transaction is open from now on.
    pub fn open(&mut self, alloc: Global)
        ensures { self.new ≡ with_open self.old (transaction_in self.old) }
    {
        if self.transaction.is_none() {
            self.transaction = Some(Transaction::new(alloc));
        }
    }

    /// Takes the open transaction out, or a new one.
    fn take_transaction(&mut self, alloc: Global) -> Transaction
        ensures taken { result ≡ transaction_in self.old }
        ensures rest { self.new ≡ record self.old { transaction = None } }
    {
        match self.transaction.take() {
            Some(transaction) => transaction,
            None => Transaction::new(alloc),
        }
    }

    fn put_transaction(&mut self, transaction: Transaction)
        ensures { self.new ≡ with_open self.old transaction }
    {
        self.transaction = Some(transaction);
    }

    /// These changes of its transaction stand, too.
    pub fn note(&mut self, alloc: Global, changes: Vec<Change>) -> Result<(), NoMemory>
        ensures ok { OnOk result (let t = transaction_in self.old in self.new ≡ with_open self.old (record t { standing = t.standing ++ changes.items })) }
        ensures err { OnErr result (self.new ≡ with_open self.old (transaction_in self.old)) }
    {
        let mut transaction = self.take_transaction(alloc);
        let noted = transaction.note(changes);
        self.put_transaction(transaction);
        noted
    }

    /// Sets a savepoint in its transaction.
    pub fn set_savepoint(&mut self, alloc: Global, name: Name) -> Result<(), NoMemory>
        ensures ok { OnOk result (self.new ≡ with_open self.old (with_savepoint name (transaction_in self.old))) }
        ensures err { OnErr result (self.new ≡ with_open self.old (transaction_in self.old)) }
    {
        let mut transaction = self.take_transaction(alloc);
        let set = transaction.set_savepoint(name);
        self.put_transaction(transaction);
        set
    }

    /// Goes back to the newest savepoint of the name in its transaction, if there is one.
    pub fn back_to(&mut self, alloc: Global, name: &Name) -> Result<Option<Undone>, NoMemory>
        ensures back { IfOk result (GoesBackIn (back_from name.now (transaction_in self.old).savepoints) self.old self.new) }
        ensures err { OnErr result (self.new ≡ with_open self.old (transaction_in self.old)) }
    {
        let mut transaction = self.take_transaction(alloc);
        let undone = transaction.back_to(alloc, name);
        self.put_transaction(transaction);
        undone
    }

    /// Releases the newest savepoint of the name in its transaction and all later ones, and tells whether there is one.
    pub fn release(&mut self, alloc: Global, name: &Name) -> bool
        ensures { ReleasesIn (back_from name.now (transaction_in self.old).savepoints) self.old self.new result }
    {
        let mut transaction = self.take_transaction(alloc);
        let found = transaction.release(name);
        self.put_transaction(transaction);
        found
    }

    /// Its transaction is over, if one was open, which it tells.
    pub fn end_transaction(&mut self) -> bool
        ensures open { result ≡ is_some self.old.transaction }
        ensures over { self.new ≡ record self.old { transaction = None } }
    {
        let open = self.transaction.is_some();
        self.transaction = None;
        open
    }

    /// Takes the statement under way out.
    pub fn take_work(&mut self) -> Option<Run>
        ensures work { option_map (λ run. run.run) result ≡ self.old.work }
        ensures rest { self.new ≡ record self.old { work = None } }
    {
        self.work.take()
    }

    /// The statement is under way.
    pub fn put_work(&mut self, run: Run)
        ensures { self.new ≡ record self.old { work = Some run.run } }
    {
        self.work = Some(run);
    }

    /// The statement goes on, and waits for nothing.
    pub fn go_on(&mut self, run: Run)
        ensures { self.new ≡ record self.old { work = Some run.run; request = None } }
    {
        self.work = Some(run);
        self.forget_request();
    }

    /// It waits for these locks.
    pub fn wait(&mut self, wants: Wants)
        ensures { self.new ≡ record self.old { request = Some wants } }
    {
        self.request = Some(wants);
    }

    /// It has ended.
    pub fn end(&mut self)
        ensures { self.new ≡ record self.old { has_ended = true } }
    {
        self.has_ended = true;
    }

    /// What it was asked and answered.
    pub fn close(self) -> Closed
        ensures script { result.script ≡ self.script }
        ensures transcript { result.transcript.items ≡ self.transcript }
    {
        let Connection {
            script,
            spans: _,
            answered: _,
            transcript,
            level: _,
            blocking: _,
            transaction: _,
            work: _,
            request: _,
            has_ended: _,
        } = self;
        Closed { script, transcript }
    }
}

ghost use Rattle.std.specs.Prelude.{◌≡◌, ◌≤◌, ◌<◌, ◌++◌, [], length, true, is_some, ℕ, Some, None, IfOk, MatchOption, OnOk};
ghost use Rattle.std.specs.Option.{option_map};
ghost use Rattle.wat_conn.specs.declared.answer.Answer.TheVariants.{Stopped};
ghost use Rattle.wat_steps.specs.State.{CoreState, with_connection};
ghost use Rattle.wat_steps.specs.Answering.{answered, ended, opened, transaction_of, with_answer, with_transaction};
ghost use Rattle.wat_steps.specs.Asking.{going_on};
ghost use Rattle.wat_steps.specs.Statements.{IsLeastOpen, IsOpen, saves_from, with_blocking, with_level, with_savepoint};
ghost use Rattle.wat_core.specs.CoreParts.{HasCore};
ghost use Rattle.wat_core.specs.Parts.{HasParts};
ghost use Rattle.wat_core.specs.Savepoints.{GoesBackAt, ReleasesAt};
ghost use Rattle.wat_core.specs.Telling.{IsTold};

use crate::asking::{Told, ask};
use crate::opened::first_open;
use std::alloc::Global;
use std::marker::Model;
use wat_conn::{Answer, Reason};
use wat_connection::{Connection, Undone};
use wat_exec::Run;
use wat_list::NoMemory;
use wat_locks::Wants;
use wat_name::Name;
use wat_statement_locks::StatementLocks;
use wat_value::{Acts, Change};

/// The connections, which are numbered from 1, and the locks of all.
///
/// After want of memory it is used for answers alone.
#[derive(Drop)]
pub struct Core {
    connections: Vec<Connection>,
    locks: StatementLocks,
}

impl Model for Core {
    ghost use Rattle.std.specs.Prelude.{◌<◌, length};
    ghost use Rattle.std.specs.Coded.{codes};
    ghost use Rattle.wat_ast.specs.contracts.expression.Expr as e;
    ghost use Rattle.wat_core.specs.CoreParts.{CoreParts};

    ghost Value = { CoreParts };

    ghost coded = { Prim.hlevel (codes, e.the_row.coded) };

    ghost view = { λ core. record { states = core.connections.items; held = core.locks } };

    ghost invariant = { λ core. length core.connections.items < 65536 };
}

impl Core {
    /// Answers the first of the connection's statements that are left. Its short locks go.
    pub fn answer(&mut self, conn: u16, answer: Answer, acts: Acts)
        requires from_one { 1 ≤ conn }
        requires within { conn ≤ length self.old.states }
        ensures { (e : CoreState) → HasCore e self.old → HasCore (answered conn e answer acts) self.new }
    {
        let at = conn as usize - 1;
        self.connections[at].answer(answer, acts);
        self.locks.end_statement(conn);
    }

    /// Answers the first of the connection's statements that are left where the session has stopped. All else stays.
    pub fn answer_stopped(&mut self, alloc: Global, conn: u16, reason: Reason)
        requires from_one { 1 ≤ conn }
        requires within { conn ≤ length self.old.states }
        ensures { (e : CoreState) → HasCore e self.old → HasCore (with_connection conn (with_answer (e.connections conn).left (e.connections conn) (Stopped reason) []) e) self.new }
    {
        let at = conn as usize - 1;
        self.connections[at].answer_stopped(alloc, reason);
    }

    /// The connection has ended.
    pub fn end(&mut self, conn: u16)
        requires from_one { 1 ≤ conn }
        requires within { conn ≤ length self.old.states }
        ensures { (e : CoreState) → HasCore e self.old → HasCore (with_connection conn (record (e.connections conn) { has_ended = true }) e) self.new }
    {
        let at = conn as usize - 1;
        self.connections[at].end();
    }

    /// The connection's level from its next statement on.
    pub fn set_level(&mut self, conn: u16, level: u8)
        requires from_one { 1 ≤ conn }
        requires within { conn ≤ length self.old.states }
        ensures { (e : CoreState) → HasCore e self.old → HasCore (with_level conn level e) self.new }
    {
        let at = conn as usize - 1;
        self.connections[at].set_level(level);
    }

    /// Whether the connection waits for locks from now on.
    pub fn set_blocking(&mut self, conn: u16, blocking: bool)
        requires from_one { 1 ≤ conn }
        requires within { conn ≤ length self.old.states }
        ensures { (e : CoreState) → HasCore e self.old → HasCore (with_blocking conn blocking e) self.new }
    {
        let at = conn as usize - 1;
        self.connections[at].set_blocking(blocking);
    }

    /// The connection has a transaction open from now on.
    pub fn open(&mut self, alloc: Global, conn: u16)
        requires from_one { 1 ≤ conn }
        requires within { conn ≤ length self.old.states }
        ensures { (e : CoreState) → HasCore e self.old → HasCore (opened conn e) self.new }
    {
        let at = conn as usize - 1;
        self.connections[at].open(alloc);
    }

    /// The connection's transaction is over, and its locks go. It tells whether one was open.
    pub fn end_transaction(&mut self, conn: u16) -> bool
        requires from_one { 1 ≤ conn }
        requires within { conn ≤ length self.old.states }
        ensures open { (e : CoreState) → HasCore e self.old → result ≡ is_some (e.connections conn).transaction }
        ensures over { (e : CoreState) → HasCore e self.old → HasCore (ended conn e) self.new }
    {
        let at = conn as usize - 1;
        let open = self.connections[at].end_transaction();
        self.locks.end_transaction(conn);
        open
    }

    /// The connection's statement goes on, and waits for nothing.
    pub fn go_on(&mut self, conn: u16, run: Run)
        requires from_one { 1 ≤ conn }
        requires within { conn ≤ length self.old.states }
        ensures { (e : CoreState) → HasCore e self.old → HasCore (going_on conn run.run e) self.new }
    {
        let at = conn as usize - 1;
        self.connections[at].go_on(run);
    }

    /// Sets a savepoint in the connection's transaction.
    pub fn set_savepoint(&mut self, alloc: Global, conn: u16, name: Name) -> Result<(), NoMemory>
        requires from_one { 1 ≤ conn }
        requires within { conn ≤ length self.old.states }
        ensures { (e : CoreState) → HasCore e self.old → OnOk result (HasCore (with_transaction conn (with_savepoint name (transaction_of conn e)) e) self.new) }
    {
        let at = conn as usize - 1;
        self.connections[at].set_savepoint(alloc, name)
    }

    /// These changes of the connection's transaction stand, too.
    pub fn note(&mut self, alloc: Global, conn: u16, changes: Vec<Change>) -> Result<(), NoMemory>
        requires from_one { 1 ≤ conn }
        requires within { conn ≤ length self.old.states }
        ensures { (e : CoreState) → HasCore e self.old → OnOk result (HasCore (with_transaction conn (record (transaction_of conn e) { standing = (transaction_of conn e).standing ++ changes.items }) e) self.new) }
    {
        let at = conn as usize - 1;
        self.connections[at].note(alloc, changes)
    }

    /// Gives the connection all that it wants, for a visit of the scan or for a change; or tells why not.
    pub fn ask(
        &mut self,
        alloc: Global,
        conn: u16,
        scan: Option<u32>,
        wants: Wants,
    ) -> Result<Told, NoMemory>
        requires from_one { 1 ≤ conn }
        requires within { conn ≤ length self.old.states }
        ensures { (e : CoreState) → HasParts e self.old.states self.old.held → IfOk result (λ told. IsTold e conn scan wants told self.new.states self.new.held) }
    {
        ask(
            alloc,
            &mut self.locks,
            &mut self.connections,
            conn,
            scan,
            wants,
        )
    }

    /// The least connection that has a transaction open.
    pub fn least_open(&self) -> Option<u16>
        ensures { (e : CoreState) → HasCore e self.now → MatchOption result ((d : ℕ) → IsOpen e d → ⊥) (IsLeastOpen e) }
    {
        first_open(self.connections.as_slice())
    }

    /// These connections, of which none holds a lock.
    pub fn of(alloc: Global, connections: Vec<Connection>) -> Self
        requires { length connections.items < 65536 }
        ensures { result ≡ record { states = connections.items; held = [] } }
    {
        Core {
            connections,
            locks: StatementLocks::new(alloc),
        }
    }

    /// The connection of that number.
    pub fn connection(&self, conn: u16) -> &Connection
        requires from_one { 1 ≤ conn }
        requires within { conn ≤ length self.now.states }
        ensures { (e : CoreState) → HasCore e self.now → e.connections conn ≡ result.now }
    {
        let at = conn as usize - 1;
        &self.connections[at]
    }

    /// Takes the connection's statement under way out.
    pub fn take_work(&mut self, conn: u16) -> Option<Run>
        requires from_one { 1 ≤ conn }
        requires within { conn ≤ length self.old.states }
        ensures work { (e : CoreState) → HasCore e self.old → option_map (λ run. run.run) result ≡ (e.connections conn).work }
        ensures rest { (e : CoreState) → HasCore e self.old → HasCore (with_connection conn (record (e.connections conn) { work = None }) e) self.new }
    {
        let at = conn as usize - 1;
        self.connections[at].take_work()
    }

    /// The connection has the statement under way.
    pub fn put_work(&mut self, conn: u16, run: Run)
        requires from_one { 1 ≤ conn }
        requires within { conn ≤ length self.old.states }
        ensures { (e : CoreState) → HasCore e self.old → HasCore (with_connection conn (record (e.connections conn) { work = Some run.run }) e) self.new }
    {
        let at = conn as usize - 1;
        self.connections[at].put_work(run);
    }

    /// Goes back to the newest savepoint of the name in the connection's transaction, if there is one.
    pub fn back_to(
        &mut self,
        alloc: Global,
        conn: u16,
        name: &Name,
    ) -> Result<Option<Undone>, NoMemory>
        requires from_one { 1 ≤ conn }
        requires within { conn ≤ length self.old.states }
        ensures { (e : CoreState) → HasCore e self.old → IfOk result (λ undone. GoesBackAt (saves_from conn name.now e) conn e undone self.new) }
    {
        let at = conn as usize - 1;
        self.connections[at].back_to(alloc, name)
    }

    /// Releases the newest savepoint of the name in the connection's transaction and all later ones, and tells whether there
    /// is one.
    pub fn release(&mut self, alloc: Global, conn: u16, name: &Name) -> bool
        requires from_one { 1 ≤ conn }
        requires within { conn ≤ length self.old.states }
        ensures { (e : CoreState) → HasCore e self.old → ReleasesAt (saves_from conn name.now e) conn e result self.new }
    {
        let at = conn as usize - 1;
        self.connections[at].release(alloc, name)
    }
}

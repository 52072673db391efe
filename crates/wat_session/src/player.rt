// The answers of a session, and the transactions that they commit.
ghost use Rattle.std.specs.Prelude.{◌≡◌, ◌≢◌, ◌+◌, ◌<◌, ◌≤◌, ◌^◌, ◌++◌, [], All, Ok, Err, OnOk, OnErr, IfOk, IfErr, map};
ghost use Rattle.std.specs.List.{fold};
ghost use Rattle.wat_disk.specs.Disk.{IsSynced, InFile, SameOthers, EachStop, MakesAtMost};
ghost use Rattle.wat_faults.specs.Faults.{HasCause};
ghost use Rattle.wat_gate.specs.GateLog.{file_of, bodies_in, IsLogOf};
ghost use Rattle.wat_commit_log.specs.Logged.{IsFramed, body_of};
ghost use Rattle.wat_commit_log.specs.Pending.{IsWritableAct};
ghost use Rattle.wat_history.specs.Naming.{after_act};
ghost use Rattle.wat_alone.specs.Alone.{turn_of};
ghost use Rattle.wat_alone.specs.Committing.{committed, committed_by, saved};
ghost use Rattle.wat_session.specs.Saving.{KeepsOrSaves, MayStop, moment_by};

use std::alloc::Global;
use wat_alone::{Connection, Turned, names_after};
use wat_ast::Statement;
use wat_commit_log::{Pending, SaveRefusal, save_schema};
use wat_conn::{Answer, Moments, Reason, TableNames};
use wat_disk::Disk;
use wat_gate::GateLog;
use wat_value::{Act, Acts};

/// A statement's answer, and the acts that it made.
#[derive(Drop)]
pub struct Answered {
    pub answer: Answer,
    pub acts: Acts,
}

/// A session under way: the connection, the log, the moments of the commits so far, and the names of the tables.
#[derive(Drop)]
pub struct Player {
    pub connection: Connection,
    pub log: GateLog,
    pub moments: Moments,
    pub names: TableNames,
}

fn reason_of(refusal: SaveRefusal) -> Reason
    ensures fault { result ≡ Reason.DiskFault → refusal ≡ SaveRefusal.DiskFault }
    ensures fault_from { refusal ≡ SaveRefusal.DiskFault → result ≡ Reason.DiskFault }
    ensures memory { result ≡ Reason.Memory → refusal ≡ SaveRefusal.Memory }
    ensures may { MayStop result }
{
    match refusal {
        SaveRefusal::DiskFault => Reason::DiskFault,
        SaveRefusal::Memory => Reason::Memory,
    }
}

/// Puts the changes of a transaction on the disk, if it has any.
fn save_rows<D: Disk>(
    alloc: Global,
    changes: Pending,
    log: &mut GateLog,
    disk: &mut D,
) -> Result<(), Reason>
    requires { D.tells_content → IsLogOf (D.told disk.old) log.old }
    ensures known { D.tells_content → OnOk result (IsLogOf (D.told disk.new) log.new) }
    ensures saved { D.tells_content → OnOk result (bodies_in (D.told disk.new) log.new ≡ bodies_in (D.told disk.old) log.old ++ map body_of (saved (committed (Some changes) []))) }
    ensures framed { result ≢ Err Reason.Memory → All IsFramed (saved (committed (Some changes) [])) }
    ensures synced { OnOk result (IsSynced (D.told disk.old) (file_of log.old) → IsSynced (D.told disk.new) (file_of log.old)) }
    ensures file { file_of log.new ≡ file_of log.old }
    ensures others { SameOthers (file_of log.old) (D.told disk.old).content (D.told disk.new).content }
    ensures stops { D.tells_content → IsSynced (D.told disk.old) (file_of log.old)
        → EachStop (D.told disk.old) (D.told disk.new) (InFile (file_of log.old) (KeepsOrSaves (saved (committed (Some changes) [])))) }
    ensures cause { HasCause (D.told disk.old).faults (D.told disk.new).faults (result ≡ Err Reason.DiskFault) }
    ensures may { IfErr result MayStop }
    ensures memory { result ≡ Err Reason.Memory → disk.new ≡ disk.old }
    ensures fault { result ≡ Err Reason.DiskFault → saved (committed (Some changes) []) ≢ [] }
    ensures calls { OnOk result ((D.told disk.new).moment ≡ moment_by (saved (committed (Some changes) [])) (D.told disk.old).moment) }
    ensures calls_at_most { MakesAtMost 4 (D.told disk.old) (D.told disk.new) }
{
    if changes.is_empty() {
        return Ok(());
    }
    match changes.save(alloc, log, disk) {
        Ok(()) => Ok(()),
        Err(refusal) => Err(reason_of(refusal)),
    }
}

impl Player {
    /// Puts what a statement commits on the disk, and notes the moment.
    fn save<D: Disk>(
        &mut self,
        alloc: Global,
        commits: Option<Pending>,
        acts: &[Act],
        disk: &mut D,
    ) -> Result<(), Reason>
        requires known { D.tells_content → IsLogOf (D.told disk.old) self.old.log }
        requires room { 0 < self.old.moments.spare }
        requires writable { All IsWritableAct acts.now }
        ensures connection { self.new.connection ≡ self.old.connection }
        ensures names { self.new.names ≡ self.old.names }
        ensures moments { OnOk result (self.new.moments.items ≡ self.old.moments.items ++ map (λ _. (D.told disk.new).moment) (committed commits acts.now)) }
        ensures moments_stay { OnErr result (self.new.moments ≡ self.old.moments) }
        ensures room { self.old.moments.spare ≤ self.new.moments.spare + 1 }
        ensures known { D.tells_content → OnOk result (IsLogOf (D.told disk.new) self.new.log) }
        ensures saved { D.tells_content → OnOk result (bodies_in (D.told disk.new) self.new.log ≡ bodies_in (D.told disk.old) self.old.log ++ map body_of (saved (committed commits acts.now))) }
        ensures framed { result ≢ Err Reason.Memory → All IsFramed (saved (committed commits acts.now)) }
        ensures synced { OnOk result (IsSynced (D.told disk.old) (file_of self.old.log) → IsSynced (D.told disk.new) (file_of self.old.log)) }
        ensures file { file_of self.new.log ≡ file_of self.old.log }
        ensures others { SameOthers (file_of self.old.log) (D.told disk.old).content (D.told disk.new).content }
        ensures stops { D.tells_content → IsSynced (D.told disk.old) (file_of self.old.log)
            → EachStop (D.told disk.old) (D.told disk.new) (InFile (file_of self.old.log) (KeepsOrSaves (saved (committed commits acts.now)))) }
        ensures cause { HasCause (D.told disk.old).faults (D.told disk.new).faults (result ≡ Err Reason.DiskFault) }
        ensures may { IfErr result MayStop }
        ensures memory { result ≡ Err Reason.Memory → disk.new ≡ disk.old }
        ensures fault { result ≡ Err Reason.DiskFault → saved (committed commits acts.now) ≢ [] }
        ensures calls { OnOk result ((D.told disk.new).moment ≡ moment_by (saved (committed commits acts.now)) (D.told disk.old).moment) }
        ensures calls_at_most { MakesAtMost 4 (D.told disk.old) (D.told disk.new) }
    {
        match (commits, acts) {
            (Some(changes), _) => match save_rows(alloc, changes, &mut self.log, disk) {
                Ok(()) => {
                    self.moments.push(disk.moment());
                    Ok(())
                }
                Err(reason) => Err(reason),
            },
            (None, [Act::OnSchema(change)]) => {
                match save_schema(alloc, change, &mut self.log, disk) {
                    Ok(()) => {
                        self.moments.push(disk.moment());
                        Ok(())
                    }
                    Err(refusal) => Err(reason_of(refusal)),
                }
            }
            (None, _) => Ok(()),
        }
    }

    /// Answers a statement. What it commits is on the disk before. After a refusal the session has stopped.
    pub fn answer<D: Disk>(
        &mut self,
        alloc: Global,
        statement: &Statement,
        disk: &mut D,
    ) -> Result<Answered, Reason>
        requires known { D.tells_content → IsLogOf (D.told disk.old) self.old.log }
        requires commits { self.old.connection.commits + 1 < 2 ^ 64 }
        requires room { 0 < self.old.moments.spare }
        ensures answer { IfOk result (λ answered. answered.answer ≡ (turn_of self.old.connection statement.now).answer) }
        ensures acts { IfOk result (λ answered. answered.acts ≡ (turn_of self.old.connection statement.now).acts) }
        ensures next { OnOk result (self.new.connection ≡ (turn_of self.old.connection statement.now).next) }
        ensures names { OnOk result (self.new.names ≡ fold after_act self.old.names (turn_of self.old.connection statement.now).acts) }
        ensures names_stay { OnErr result (self.new.names ≡ self.old.names) }
        ensures moments { OnOk result (self.new.moments.items ≡ self.old.moments.items ++ map (λ _. (D.told disk.new).moment) (committed_by (turn_of self.old.connection statement.now))) }
        ensures moments_stay { OnErr result (self.new.moments ≡ self.old.moments) }
        ensures room { self.old.moments.spare ≤ self.new.moments.spare + 1 }
        ensures known { D.tells_content → OnOk result (IsLogOf (D.told disk.new) self.new.log) }
        ensures saved { D.tells_content → OnOk result (bodies_in (D.told disk.new) self.new.log ≡ bodies_in (D.told disk.old) self.old.log ++ map body_of (saved (committed_by (turn_of self.old.connection statement.now)))) }
        ensures framed { result ≢ Err Reason.Memory → All IsFramed (saved (committed_by (turn_of self.old.connection statement.now))) }
        ensures synced { OnOk result (IsSynced (D.told disk.old) (file_of self.old.log) → IsSynced (D.told disk.new) (file_of self.old.log)) }
        ensures file { file_of self.new.log ≡ file_of self.old.log }
        ensures others { SameOthers (file_of self.old.log) (D.told disk.old).content (D.told disk.new).content }
        ensures stops { D.tells_content → IsSynced (D.told disk.old) (file_of self.old.log)
            → EachStop (D.told disk.old) (D.told disk.new) (InFile (file_of self.old.log) (KeepsOrSaves (saved (committed_by (turn_of self.old.connection statement.now))))) }
        ensures cause { HasCause (D.told disk.old).faults (D.told disk.new).faults (result ≡ Err Reason.DiskFault) }
        ensures may { IfErr result MayStop }
        ensures memory { result ≡ Err Reason.Memory → disk.new ≡ disk.old }
        ensures fault { result ≡ Err Reason.DiskFault → saved (committed_by (turn_of self.old.connection statement.now)) ≢ [] }
        ensures calls { OnOk result ((D.told disk.new).moment ≡ moment_by (saved (committed_by (turn_of self.old.connection statement.now))) (D.told disk.old).moment) }
        ensures calls_at_most { MakesAtMost 4 (D.told disk.old) (D.told disk.new) }
    {
        let Turned {
            answer,
            acts,
            commits,
        } = match self.connection.answer(alloc, statement) {
            Ok(turned) => turned,
            Err(_) => return Err(Reason::Memory),
        };
        let after = match names_after(alloc, &self.names, acts.as_slice()) {
            Ok(after) => after,
            Err(_) => return Err(Reason::Memory),
        };
        match self.save(alloc, commits, acts.as_slice(), disk) {
            Ok(()) => {
                if let Some(names) = after {
                    self.names = names;
                }
                Ok(Answered { answer, acts })
            }
            Err(reason) => Err(reason),
        }
    }
}

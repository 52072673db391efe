ghost use Rattle.std.specs.Prelude.{⊤, ◌≡◌, ◌≢◌, ◌≤◌, ◌⊎◌, ◌+◌, ◌*◌, ℕ, None, Some, Err, map, string_bytes, Result, IfOk, IfErr, OnOk, OnErr, IsOkUnless};
ghost use Rattle.wat_schema.specs.Tables.{IsTables, Tables};
ghost use Rattle.wat_disk.specs.Disk.{MakesCalls};
ghost use Rattle.wat_faults.specs.Faults.{HasCause, Rose};
ghost use Rattle.wat_gate.specs.GateLog.{file_of, frames_of};
ghost use Rattle.wat_commit_log.specs.Logged.{log_file};
ghost use Rattle.wat_commit_log.specs.Making.{MayMake};
ghost use Rattle.wat_commit_log.specs.Opening.{MayOpen};
ghost use Rattle.wat_commit_log.specs.Opened.{IsOpened};
ghost use Rattle.wat_words.specs.Commands.{command_of, names_of};
ghost use Rattle.wat_begin.specs.Faults.{UnlessMemory};
ghost use Rattle.wat_tool.specs.Called.{made, names_called, opened};
ghost use Rattle.wat_tool.specs.Ending.{AsksFirst, ChangesFirstByte, Ends, EndsRun, IsBeforeDisk, IsMade, IsUntouched, LeavesUntouched, MetDiskFault};
ghost use Rattle.wat_session.specs.Session.{IsOneScript, IsSession};
ghost use Rattle.wat_tool.specs.Steps.{tables_of};
ghost use Rattle.wat_tool.specs.Dumps.{IsDump};
ghost use Rattle.wat_tool.specs.ReadingBack.{MayReadBack};

use std::alloc::Global;
use wat_begin::{Fault, read_scripts};
use wat_commit_log::{InitRefusal, OpenWhy, Opened, init, open, restart_laws};
use wat_conn::{ScriptList, Session};
use wat_disk::Disk;
use wat_dump::dump;
use wat_dump_law::dump_law;
use wat_io::Scripts;
use wat_list::Items;
use wat_session::play;
use wat_translate::{LogRefusal, translate};
use wat_words::{Command, read_words, script_names};

/// What a command that was done leaves.
#[derive(Drop)]
pub enum Done {
    /// A database was made.
    Made,
    /// A session was played.
    Played(Session),
    /// The log was read back as this text.
    Translated(Items<u8>),
    /// The tables were written as this text.
    Dumped(Items<u8>),
}

/// Makes a database.
fn make_database<D: Disk>(disk: &mut D) -> Result<(), Fault>
    ensures making { (making : Result ⊤ InitRefusal) × MayMake D.tells_content ((D.told disk.old).content log_file) (Rose (D.told disk.old).faults (D.told disk.new).faults) making
        × (result ≡ made making) }
    ensures made { OnOk result (IsMade D.tells_content (D.told disk.new)) }
    ensures first_byte { ChangesFirstByte (D.told disk.old) (D.told disk.new) }
    ensures untouched { result ≢ Err Fault.DiskFault → OnErr result (IsUntouched (D.told disk.old) (D.told disk.new)) }
    ensures cause { HasCause (D.told disk.old).faults (D.told disk.new).faults (result ≡ Err Fault.DiskFault) }
{
    match init(disk) {
        Ok(()) => Ok(()),
        Err(InitRefusal::Exists) => Err(Fault::Exists),
        Err(InitRefusal::DiskFault) => Err(Fault::DiskFault),
        Err(InitRefusal::Memory) => Err(Fault::Memory),
    }
}

/// Opens the log.
fn open_log<D: Disk>(alloc: Global, disk: &mut D) -> Result<Opened, Fault>
    ensures opening { (opening : Result Tables OpenWhy) × MayOpen D.tells_content ((D.told disk.old).content log_file) (Rose (D.told disk.old).faults (D.told disk.new).faults) opening
        × (tables_of result ≡ opened opening) }
    ensures log { D.tells_content → IfOk result (IsOpened (D.told disk.new)) }
    ensures file { IfOk result (λ opened. file_of opened.log ≡ log_file) }
    ensures tables { IfOk result (λ opened. IsTables opened.tables) }
    ensures calls { IfOk result (λ opened. MakesCalls (6 * frames_of opened.log + 3) (D.told disk.old) (D.told disk.new)) }
    ensures untouched { IsUntouched (D.told disk.old) (D.told disk.new) }
    ensures cause { HasCause (D.told disk.old).faults (D.told disk.new).faults (result ≡ Err Fault.DiskFault) }
{
    match open(alloc, disk) {
        Ok(opened) => {
            opened.tables.tables_law();
            Ok(opened)
        }
        Err(OpenWhy::NoDatabase) => Err(Fault::NoDatabase),
        Err(OpenWhy::Damaged { at }) => Err(Fault::Damaged { at }),
        Err(OpenWhy::DiskFault) => Err(Fault::DiskFault),
        Err(OpenWhy::Memory) => Err(Fault::Memory),
    }
}

/// Plays the one script over what was opened.
fn play_script<D: Disk>(
    alloc: Global,
    texts: ScriptList,
    opened: Opened,
    disk: &mut D,
) -> Result<Session, Fault>
    requires one { IsOneScript texts }
    requires file { file_of opened.log ≡ log_file }
    requires opened { D.tells_content → IsOpened (D.told disk.old) opened }
    ensures session { IfOk result (IsSession (record {
      tells = D.tells_content;
      entry = D.told disk.old;
      now = D.told disk.new;
      start = (D.told disk.old).moment;
      file = log_file;
      base = opened.tables;
    }) texts) }
    ensures memory { IsOkUnless result Fault.Memory }
    ensures never_falls { (D.told disk.old).faults ≤ (D.told disk.new).faults }
    ensures not_begun { OnErr result (disk.new ≡ disk.old) }
{
    match play(alloc, texts, opened, disk) {
        Ok(session) => Ok(session),
        Err(_) => Err(Fault::Memory),
    }
}

/// Plays the script that the words of `run` name over the log.
fn run_script<L: Scripts, D: Disk>(
    alloc: Global,
    words: &[String],
    scripts: &mut L,
    disk: &mut D,
) -> Result<Done, Fault>
    requires command { command_of (map string_bytes words.now) ≡ Some Command.Run }
    ensures ends { UnlessMemory result (EndsRun (record {
      texts = L.texts scripts.old;
      asked_before = L.asked scripts.old;
      asked = L.asked scripts.new;
      script_faults_before = L.faults scripts.old;
      script_faults = L.faults scripts.new;
      tells = D.tells_content;
      disk_before = D.told disk.old;
      disk = D.told disk.new;
    }) (names_of Command.Run (map string_bytes words.now)) result) }
    ensures asks { AsksFirst (names_of Command.Run (map string_bytes words.now)) (L.asked scripts.old) (L.asked scripts.new) }
    ensures untouched { OnErr result (IsUntouched (D.told disk.old) (D.told disk.new)) }
    ensures uncalled { IfErr result (λ met. IsBeforeDisk met → (D.told disk.new).moment ≡ (D.told disk.old).moment) }
    ensures disk_faults { ¬ MetDiskFault result → (D.told disk.new).faults ≡ (D.told disk.old).faults }
    ensures script_faults { ((i : ℕ) → result ≢ Err (Fault.CannotRead i)) → L.faults scripts.new ≡ L.faults scripts.old }
{
    let texts = match read_scripts(alloc, script_names(Command::Run, words), scripts) {
        Ok(texts) => texts,
        Err(fault) => return Err(fault),
    };
    let opened = match open_log(alloc, disk) {
        Ok(opened) => opened,
        Err(fault) => return Err(fault),
    };
    match play_script(alloc, texts, opened, disk) {
        Ok(session) => Ok(Done::Played(session)),
        Err(fault) => Err(fault),
    }
}

/// Reads the log back as SQL.
fn translate_log<D: Disk>(alloc: Global, disk: &mut D) -> Result<Done, Fault>
    ensures ends { MayReadBack D.tells_content (D.told disk.old).content (Rose (D.told disk.old).faults (D.told disk.new).faults) result }
    ensures untouched { IsUntouched (D.told disk.old) (D.told disk.new) }
    ensures on_disk { IfErr result (λ met. IsBeforeDisk met → ⊥) }
    ensures disk_faults { ¬ MetDiskFault result → (D.told disk.new).faults ≡ (D.told disk.old).faults }
{
    match translate(alloc, disk) {
        Ok(text) => Ok(Done::Translated(Items::from_vec(text))),
        Err(LogRefusal::NoDatabase) => Err(Fault::NoDatabase),
        Err(LogRefusal::Damaged { file: _, at }) => Err(Fault::Damaged { at }),
        Err(LogRefusal::DiskFault) => Err(Fault::DiskFault),
        Err(LogRefusal::Memory) => Err(Fault::Memory),
    }
}

/// Opens the log as a session does, and writes its tables as SQL.
fn dump_tables<D: Disk>(alloc: Global, disk: &mut D) -> Result<Done, Fault>
    ensures ends { UnlessMemory result (IsDump D.tells_content ((D.told disk.old).content log_file) (Rose (D.told disk.old).faults (D.told disk.new).faults) result) }
    ensures untouched { IsUntouched (D.told disk.old) (D.told disk.new) }
    ensures on_disk { IfErr result (λ met. IsBeforeDisk met → ⊥) }
    ensures disk_faults { ¬ MetDiskFault result → (D.told disk.new).faults ≡ (D.told disk.old).faults }
{
    restart_laws();
    dump_law();
    let opened = match open_log(alloc, disk) {
        Ok(opened) => opened,
        Err(fault) => return Err(fault),
    };
    match dump(alloc, &opened.tables) {
        Ok(text) => Ok(Done::Dumped(Items::from_vec(text))),
        Err(_) => Err(Fault::Memory),
    }
}

/// Does what the words call for.
pub fn perform<L: Scripts, D: Disk>(
    alloc: Global,
    words: &[String],
    scripts: &mut L,
    disk: &mut D,
) -> Result<Done, Fault>
    ensures ends { Ends (record {
      texts = L.texts scripts.old;
      asked_before = L.asked scripts.old;
      asked = L.asked scripts.new;
      script_faults_before = L.faults scripts.old;
      script_faults = L.faults scripts.new;
      tells = D.tells_content;
      disk_before = D.told disk.old;
      disk = D.told disk.new;
    }) (map string_bytes words.now) result }
    ensures asks { AsksFirst (names_called (map string_bytes words.now)) (L.asked scripts.old) (L.asked scripts.new) }
    ensures no_command { command_of (map string_bytes words.now) ≡ None → (result ≡ Err Fault.Usage) ⊎ (result ≡ Err Fault.Memory) }
    ensures untouched { IfErr result (LeavesUntouched (map string_bytes words.now) (D.told disk.old) (D.told disk.new)) }
    ensures init { command_of (map string_bytes words.now) ≡ Some Command.Init → ChangesFirstByte (D.told disk.old) (D.told disk.new) }
    ensures disk_faults { ¬ MetDiskFault result → (D.told disk.new).faults ≡ (D.told disk.old).faults }
    ensures script_faults { ((i : ℕ) → result ≢ Err (Fault.CannotRead i)) → L.faults scripts.new ≡ L.faults scripts.old }
{
    match read_words(alloc, words) {
        Ok(Some(Command::Init)) => match make_database(disk) {
            Ok(()) => Ok(Done::Made),
            Err(fault) => Err(fault),
        },
        Ok(Some(Command::Run)) => run_script(alloc, words, scripts, disk),
        Ok(Some(Command::Translate)) => translate_log(alloc, disk),
        Ok(Some(Command::Dump)) => dump_tables(alloc, disk),
        Ok(None) => Err(Fault::Usage),
        Err(_) => Err(Fault::Memory),
    }
}

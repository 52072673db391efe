ghost use Rattle.std.specs.Prelude.{◌≡◌, ◌≢◌, [], Ok, map, string_bytes};
ghost use Rattle.wat_tool.specs.Ending.{IsNoSession, ended, outcome_of};
ghost use Rattle.wat_tool.specs.Finishes.{Finishes};

use crate::performing::{Done, perform};
use crate::writing::report;
use std::alloc::Global;
use std::sync::Wait;
use std::thread::Threads;
use wat_begin::Fault;
use wat_conn::Session;
use wat_disk::Disk;
use wat_io::{Gate, Scripts, Sink};
use wat_list::Items;
use wat_translated::translated_law;
use wat_words::Command;

/// What a call of the program leaves.
#[derive(Drop)]
pub struct Finish<D> {
    /// The status that the program ends with.
    pub status: u8,
    /// The command that was done, or why none was.
    pub outcome: Result<Command, Fault>,
    pub disk: D,
    /// The session of `run`; one in which nothing was asked where none began.
    pub session: Session,
    /// The text of `translate` or `dump`; empty where nothing was written as SQL.
    pub text: Items<u8>,
}

/// What a call leaves that ended so.
fn finished<D>(alloc: Global, end: Result<Done, Fault>, status: u8, disk: D) -> Finish<D>
    ensures status { result.status ≡ status }
    ensures disk { result.disk ≡ disk }
    ensures ended { ended result.outcome result.session result.text ≡ end }
    ensures nothing_asked { result.outcome ≢ Ok Command.Run → IsNoSession result.session }
    ensures no_text { result.outcome ≢ Ok Command.Translate → result.outcome ≢ Ok Command.Dump → result.text ≡ [] }
    ensures outcome { result.outcome ≡ outcome_of end }
{
    let none = Items::new(alloc);
    let (outcome, session, text) = match end {
        Ok(Done::Made) => (Ok(Command::Init), Session::new(alloc), none),
        Ok(Done::Played(session)) => (Ok(Command::Run), session, none),
        Ok(Done::Translated(text)) => (Ok(Command::Translate), Session::new(alloc), text),
        Ok(Done::Dumped(text)) => (Ok(Command::Dump), Session::new(alloc), text),
        Err(fault) => (Err(fault), Session::new(alloc), none),
    };
    Finish {
        status,
        outcome,
        disk,
        session,
        text,
    }
}

/// Does what the words after the program's name call for, and writes its text to `out`.
pub fn run_tool<L: Scripts, D: Disk, K: Sink>(
    alloc: Global,
    words: &[String],
    scripts: &mut L,
    disk: D,
    out: &mut K,
) -> Finish<D>
    ensures { Finishes (record {
      texts = L.texts scripts.old;
      asked_before = L.asked scripts.old;
      asked = L.asked scripts.new;
      script_faults_before = L.faults scripts.old;
      script_faults = L.faults scripts.new;
      tells = D.tells_content;
      disk_before = D.told disk;
      disk = D.told result.disk;
    }) (record {
      taken_before = K.taken out.old;
      taken = K.taken out.new;
      faults_before = K.faults out.old;
      faults = K.faults out.new;
    }) (map string_bytes words.now) result.status result.outcome result.session result.text }
{
    translated_law();
    let mut disk = disk;
    let ended = perform(alloc, words, scripts, &mut disk);
    let status = report(alloc, &ended, out);
    finished(alloc, ended, status, disk)
}

/// Does all that the program does: what `run_tool` does. No command needs threads yet, so that nothing waits and no step
/// meets the gate.
pub fn run<R: Threads + Wait + Sync, L: Scripts, D: Disk + Send, G: Gate + Sync, K: Sink>(
    _rt: &R,
    alloc: Global,
    words: &[String],
    scripts: &mut L,
    disk: D,
    _gate: &G,
    out: &mut K,
) -> Finish<D>
    ensures { Finishes (record {
      texts = L.texts scripts.old;
      asked_before = L.asked scripts.old;
      asked = L.asked scripts.new;
      script_faults_before = L.faults scripts.old;
      script_faults = L.faults scripts.new;
      tells = D.tells_content;
      disk_before = D.told disk;
      disk = D.told result.disk;
    }) (record {
      taken_before = K.taken out.old;
      taken = K.taken out.new;
      faults_before = K.faults out.old;
      faults = K.faults out.new;
    }) (map string_bytes words.now) result.status result.outcome result.session result.text }
{
    run_tool(alloc, words, scripts, disk, out)
}

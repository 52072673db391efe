ghost use Rattle.std.specs.Prelude.{◌≡◌, ◌++◌, List, ℕ, OnOk, OnErr, IsErr, decimal};
ghost use Rattle.std.specs.Io.KnownBytes.{Appends};
ghost use Rattle.wat_faults.specs.Faults.{HasCause};
ghost use Rattle.wat_io.specs.Sink.{AppendsPart};
ghost use Rattle.wat_tool.specs.Reporting.{Reports, fault_line, fault_status, session_status};
ghost use Rattle.wat_begin.specs.declared.fault.Fault.TheVariants.{NotText};

use crate::performing::Done;
use itoa::Buffer;
use std::alloc::Global;
use wat_begin::Fault;
use wat_conn::{Reason, Session};
use wat_io::{Sink, SinkFault, write_all};
use wat_print::printed;

/// Writes one text and then another.
#[tactic(auto, using(crate::proofs::SinkLemmas::appended))]
fn write_both<K: Sink>(out: &mut K, first: &[u8], second: &[u8]) -> Result<(), SinkFault>
    ensures ok { OnOk result (Appends (K.taken out.old) (K.taken out.new) (first.now ++ second.now)) }
    ensures err { OnErr result (AppendsPart (K.taken out.old) (K.taken out.new) (first.now ++ second.now)) }
    ensures faults { HasCause (K.faults out.old) (K.faults out.new) (IsErr result) }
{
    match write_all(out, first) {
        Err(fault) => Err(fault),
        Ok(()) => match write_all(out, second) {
            Err(fault) => Err(fault),
            Ok(()) => Ok(()),
        },
    }
}

/// Writes a number between two texts.
#[tactic(auto, using(crate::proofs::SinkLemmas::appended))]
fn write_numbered<K: Sink>(
    out: &mut K,
    front: &[u8],
    number: u64,
    back: &[u8],
) -> Result<(), SinkFault>
    ensures ok { OnOk result (Appends (K.taken out.old) (K.taken out.new) (front.now ++ (decimal number ++ back.now))) }
    ensures err { OnErr result (AppendsPart (K.taken out.old) (K.taken out.new) (front.now ++ (decimal number ++ back.now))) }
    ensures faults { HasCause (K.faults out.old) (K.faults out.new) (IsErr result) }
{
    match write_all(out, front) {
        Err(fault) => Err(fault),
        Ok(()) => {
            let mut digits = Buffer::new();
            match write_both(out, digits.format(number).as_bytes(), back) {
                Err(fault) => Err(fault),
                Ok(()) => Ok(()),
            }
        }
    }
}

/// Writes that a script is not text.
#[tactic(auto, using(crate::proofs::SinkLemmas::appended))]
fn write_not_text<K: Sink>(out: &mut K, script: u64, at: u64) -> Result<(), SinkFault>
    ensures ok { OnOk result (Appends (K.taken out.old) (K.taken out.new) (fault_line (NotText script at))) }
    ensures err { OnErr result (AppendsPart (K.taken out.old) (K.taken out.new) (fault_line (NotText script at))) }
    ensures faults { HasCause (K.faults out.old) (K.faults out.new) (IsErr result) }
{
    match write_numbered(out, b"watsql: script ", script, b" is not text at ") {
        Err(fault) => Err(fault),
        Ok(()) => match write_numbered(out, b"", at, b"\n") {
            Err(fault) => Err(fault),
            Ok(()) => Ok(()),
        },
    }
}

/// Writes what is printed of a fault. It takes no memory.
fn write_fault<K: Sink>(out: &mut K, fault: Fault) -> Result<(), SinkFault>
    ensures ok { OnOk result (Appends (K.taken out.old) (K.taken out.new) (fault_line fault)) }
    ensures err { OnErr result (AppendsPart (K.taken out.old) (K.taken out.new) (fault_line fault)) }
    ensures faults { HasCause (K.faults out.old) (K.faults out.new) (IsErr result) }
{
    match fault {
        Fault::Usage => write_all(out, b"watsql: usage\n"),
        Fault::CannotRead { script } => write_numbered(
            out,
            b"watsql: cannot read script ",
            script,
            b"\n",
        ),
        Fault::TooLong { script } => write_numbered(
            out,
            b"watsql: script ",
            script,
            b" is too long\n",
        ),
        Fault::NotText { script, at } => write_not_text(out, script, at),
        Fault::NoDatabase => write_all(out, b"watsql: no database\n"),
        Fault::Exists => write_all(out, b"watsql: a database is here\n"),
        Fault::Damaged { at } => write_numbered(out, b"watsql: damaged log at ", at, b"\n"),
        Fault::DiskFault => write_all(out, b"watsql: disk fault\n"),
        Fault::Memory => write_all(out, b"watsql: want of memory\n"),
    }
}

fn fault_status(fault: Fault) -> u8
    ensures { result ≡ fault_status fault }
{
    match fault {
        Fault::Usage => 1,
        Fault::CannotRead { .. } => 2,
        Fault::TooLong { .. } | Fault::NotText { .. } => 8,
        Fault::NoDatabase | Fault::Exists | Fault::Damaged { .. } => 3,
        Fault::DiskFault => 4,
        Fault::Memory => 7,
    }
}

fn session_status(stop: Option<Reason>, found: bool, whole: bool) -> u8
    ensures { result ≡ session_status stop found whole }
{
    match (stop, found, whole) {
        (Some(Reason::Damaged { .. }), _, _) => 3,
        (Some(Reason::DiskFault), _, _) => 4,
        (Some(Reason::PageLimit { .. }), _, _) => 6,
        (Some(Reason::Memory), _, _) => 7,
        (None, false, _) => 7,
        (None, true, false) => 5,
        (None, true, true) => 0,
    }
}

/// Writes the text of how a call ended, and answers its status.
pub fn report<K: Sink>(alloc: Global, ended: &Result<Done, Fault>, out: &mut K) -> u8
    ensures { Reports (record {
      taken_before = K.taken out.old;
      taken = K.taken out.new;
      faults_before = K.faults out.old;
      faults = K.faults out.new;
    }) ended.now result }
{
    match ended {
        Err(fault) => {
            let _ = write_fault(out, *fault);
            fault_status(*fault)
        }
        Ok(Done::Made) => 0,
        Ok(Done::Translated(text) | Done::Dumped(text)) => {
            let whole = write_all(out, text.as_slice()).is_ok();
            session_status(None, true, whole)
        }
        Ok(Done::Played(session)) => {
            let mut text = Vec::new(alloc);
            match printed(session, &mut text) {
                Ok(()) => match write_all(out, text.as_slice()) {
                    Ok(()) => session_status(session.stop, true, true),
                    Err(_) => session_status(session.stop, true, false),
                },
                Err(_) => {
                    let whole = write_fault(out, Fault::Memory).is_ok();
                    session_status(session.stop, false, whole)
                }
            }
        }
    }
}

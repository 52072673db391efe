// A log is read back.
ghost use Rattle.std.specs.Prelude.{◌≡◌, ◌<◌, [], ◌↔◌, Ok, Err, IsTrue, IfOk, IfErr};
ghost use Rattle.wat_disk.specs.Disk.{SameFiles, EachStop};
ghost use Rattle.wat_faults.specs.Faults.{HasCause};
ghost use Rattle.wat_gate.specs.Bodies.{bodies};
ghost use Rattle.wat_log.specs.Log.{log_file};
ghost use Rattle.wat_schema.specs.Tables.{Tables, no_tables};
ghost use Rattle.wat_replay.specs.Committed.{Restarts};
ghost use Rattle.wat_serial.specs.Script.{run};
ghost use Rattle.wat_translate.specs.Reading.{AreEmpty, FailsAt, IsReadBack};
ghost use Rattle.wat_translate.specs.Refusals.{IfNamed};

use crate::reading::tell_frames;
use crate::refusal::{LogRefusal, of_gate, of_length};
use std::alloc::Global;
use wat_disk::{Disk, FileId};
use wat_gate::GateLog;
use wat_log::LOG;
use wat_log_record::spelling_laws;
use wat_translated::translated_law;

fn is_empty<D: Disk>(disk: &mut D, file: FileId) -> Result<bool, LogRefusal>
    requires { file.0 < 8 }
    ensures empty { D.tells_content → IfOk result (λ empty. IsTrue empty ↔ ((D.told disk.old).content file.0 ≡ [])) }
    ensures named { IfErr result (λ refusal. IfNamed refusal ⊥ (λ file at. ⊥)) }
    ensures content { SameFiles (D.told disk.old).content (D.told disk.new).content }
    ensures stops { EachStop (D.told disk.old) (D.told disk.new) SameFiles }
    ensures cause { HasCause (D.told disk.old).faults (D.told disk.new).faults (result ≡ Err LogRefusal.DiskFault) }
{
    match disk.length(file) {
        Ok(length) => Ok(length == 0),
        Err(error) => Err(of_length(error)),
    }
}

/// Whether all files of the database are empty.
fn are_empty<D: Disk>(disk: &mut D) -> Result<bool, LogRefusal>
    ensures empty { D.tells_content → IfOk result (λ empty. IsTrue empty ↔ AreEmpty (D.told disk.old).content) }
    ensures named { IfErr result (λ refusal. IfNamed refusal ⊥ (λ file at. ⊥)) }
    ensures content { SameFiles (D.told disk.old).content (D.told disk.new).content }
    ensures stops { EachStop (D.told disk.old) (D.told disk.new) SameFiles }
    ensures cause { HasCause (D.told disk.old).faults (D.told disk.new).faults (result ≡ Err LogRefusal.DiskFault) }
{
    for file in 0..3 {
        match is_empty(disk, FileId(file)) {
            Ok(true) => {}
            Ok(false) => return Ok(false),
            Err(refusal) => return Err(refusal),
        }
    }
    Ok(true)
}

/// Reads the log of a database back as SQL: the transactions that it has committed, in the order of their commits, as
/// statements, a line each. It reads the log alone, and writes nothing to the disk.
///
/// `Damaged` tells the gate at which the log is broken, or else that of the first frame that spells no records, or records
/// that don't apply one after another from the empty database on. The text of one transaction at a time is worked out, beside
/// the tables that the records reach.
pub fn translate<D: Disk>(alloc: Global, disk: &mut D) -> Result<Vec<u8>, LogRefusal>
    // The text is that of the transactions which the log's records have committed.
    ensures translated { D.tells_content → IfOk result (λ text. IsReadBack ((D.told disk.old).content log_file) text.items) }
    // Run alone on an empty database, it gives the tables to which the log restarts.
    ensures runs { D.tells_content → IfOk result (λ text. (t : Tables) → Restarts (bodies ((D.told disk.old).content log_file)) t → run text.items no_tables ≡ Ok t) }

    ensures named { D.tells_content → IfErr result (λ refusal. IfNamed refusal (AreEmpty (D.told disk.old).content) (λ file at. (file ≡ log_file) × FailsAt ((D.told disk.old).content log_file) at)) }
    ensures empty { D.tells_content → AreEmpty (D.told disk.old).content → IfOk result (λ text. ⊥) }
    ensures none { D.tells_content → AreEmpty (D.told disk.old).content → IfErr result (λ refusal. IfNamed refusal (Unit {0}) (λ file at. ⊥)) }
    ensures cause { HasCause (D.told disk.old).faults (D.told disk.new).faults (result ≡ Err LogRefusal.DiskFault) }

    ensures content { SameFiles (D.told disk.old).content (D.told disk.new).content }
    ensures stops { EachStop (D.told disk.old) (D.told disk.new) SameFiles }
{
    spelling_laws();
    translated_law();
    match are_empty(disk) {
        Ok(true) => return Err(LogRefusal::NoDatabase),
        Ok(false) => {}
        Err(refusal) => return Err(refusal),
    }
    let log = match GateLog::open(disk, LOG) {
        Ok(log) => log,
        Err(refusal) => return Err(of_gate(refusal, LOG)),
    };
    match tell_frames(alloc, disk, &log) {
        Ok(text) => Ok(text),
        Err(refusal) => Err(refusal),
    }
}

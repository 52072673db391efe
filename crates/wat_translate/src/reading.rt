// Records and frames are read back.
ghost use Rattle.std.specs.Prelude.{◌≡◌, ◌≢◌, ◌++◌, ◌+◌, ◌<◌, ◌∷◌, [], List, IfOk, IfErr, OnOk, Err};
ghost use Rattle.std.specs.List.{AllByRecursion};
ghost use Rattle.wat_disk.specs.Disk.{SameFiles, EachStop};
ghost use Rattle.wat_faults.specs.Faults.{HasCause};
ghost use Rattle.wat_gate.specs.GateLog.{file_of, frames_of, IsLogOf, IsGateOf};
ghost use Rattle.wat_log.specs.Log.{log_file};
ghost use Rattle.wat_log_record.specs.Encoding.{IsWritable};
ghost use Rattle.wat_log_record.specs.declared.log_record.LogRecord.{LogRecord as AnyRecord};
ghost use Rattle.wat_replay.specs.State.{State};
ghost use Rattle.wat_schema.specs.Tables.{catalog_of};
ghost use Rattle.wat_script_texts.specs.Texts.{script_text};
ghost use Rattle.wat_translated.specs.Translated.{transaction};
ghost use Rattle.wat_translate.specs.Writing.{transactions_by};
ghost use Rattle.wat_translate.specs.Reading.{IsAt, HasTold, Tells, TellsBody, HasRead, HasBadFrameAt, IsReadBack};
ghost use Rattle.wat_translate.specs.Refusals.{IfNamed};

use crate::reader::Reader;
use crate::refusal::{LogRefusal, of_gate};
use crate::writing::push_transaction;
use std::alloc::Global;
use wat_disk::Disk;
use wat_gate::{GateLog, GatePlace};
use wat_list::{Items, NoMemory};
use wat_log::{LOG, read_records};
use wat_log_record::{LogRecord, spelling_laws};

/// The log is damaged from this gate on.
fn damaged(place: GatePlace) -> LogRefusal
    ensures named { IfNamed result ⊥ (λ file at. (file ≡ log_file) × (at ≡ place.at)) }
    ensures fault { result ≢ LogRefusal.DiskFault }
{
    LogRefusal::Damaged {
        file: LOG,
        at: place.at,
    }
}

/// Adds the text of the transaction that the record commits, if it commits one.
fn tell_transaction(
    alloc: Global,
    reader: &Reader,
    entry: &LogRecord,
    text: &mut Vec<u8>,
) -> Result<(), NoMemory>
    ensures { (s : State) → IsAt reader.now s → OnOk result (text.new.items ≡ text.old.items ++ script_text (transactions_by (catalog_of s.tables) (transaction entry.now s.lists))) }
{
    match reader.transaction(entry)? {
        Some(acts) => push_transaction(alloc, reader.schema(), acts.as_slice(), text),
        None => Ok(()),
    }
}

/// Adds the text of the transaction that the record commits, if it commits one, and makes the record; `false` where it
/// doesn't apply.
fn tell_entry(
    alloc: Global,
    reader: &mut Reader,
    entry: &LogRecord,
    text: &mut Vec<u8>,
) -> Result<bool, NoMemory>
    requires { IsWritable entry.now }
    ensures { (before : List AnyRecord) (s : State) → HasTold reader.old text.old.items before s → IfOk result (Tells reader.new text.new.items before (entry.now ∷ []) s) }
{
    tell_transaction(alloc, reader, entry, text)?;
    reader.apply(entry)
}

/// So with records, one after another; `false` where one doesn't apply.
fn tell_entries(
    alloc: Global,
    reader: &mut Reader,
    entries: &[LogRecord],
    text: &mut Vec<u8>,
) -> Result<bool, NoMemory>
    requires { AllByRecursion IsWritable entries.now }
    ensures { (before : List AnyRecord) (s : State) → HasTold reader.old text.old.items before s → IfOk result (Tells reader.new text.new.items before entries.now s) }
{
    for entry in entries {
        if !tell_entry(alloc, reader, entry, text)? {
            return Ok(false);
        }
    }
    Ok(true)
}

/// So with the records that a frame's body spells; `false` where it spells none, or one doesn't apply.
fn tell_body(
    alloc: Global,
    reader: &mut Reader,
    body: &[u8],
    text: &mut Vec<u8>,
) -> Result<bool, NoMemory>
    ensures { (before : List AnyRecord) (s : State) → HasTold reader.old text.old.items before s → IfOk result (TellsBody reader.new text.new.items before body.now s) }
{
    spelling_laws();
    let mut entries = Items::new(alloc);
    if !read_records(alloc, body, &mut entries)? {
        return Ok(false);
    }
    tell_entries(alloc, reader, entries.as_slice(), text)
}

/// So with the frame at a gate, and answers the next gate. `body` is room for the frame's body.
fn tell_frame<D: Disk>(
    alloc: Global,
    disk: &mut D,
    log: &GateLog,
    place: GatePlace,
    body: &mut Vec<u8>,
    reader: &mut Reader,
    text: &mut Vec<u8>,
) -> Result<GatePlace, LogRefusal>
    requires file { file_of log.now ≡ log_file }
    requires known { D.tells_content → IsLogOf (D.told disk.old) log.now }
    requires place { D.tells_content → IsGateOf (D.told disk.old) log.now place }
    requires frame { place.gate < frames_of log.now }
    requires so_far { D.tells_content → HasRead ((D.told disk.old).content (file_of log.now)) place.gate reader.old text.old.items }

    ensures told { D.tells_content → IfOk result (λ next. HasRead ((D.told disk.new).content (file_of log.now)) next.gate reader.new text.new.items) }
    ensures next { D.tells_content → IfOk result (λ next. IsGateOf (D.told disk.new) log.now next) }
    ensures one_more { IfOk result (λ next. next.gate ≡ place.gate + 1) }
    ensures named { D.tells_content → IfErr result (λ refusal. IfNamed refusal ⊥ (λ file at. (file ≡ log_file) × HasBadFrameAt ((D.told disk.old).content (file_of log.now)) at)) }

    ensures known { D.tells_content → IsLogOf (D.told disk.new) log.now }
    ensures content { SameFiles (D.told disk.old).content (D.told disk.new).content }
    ensures stops { EachStop (D.told disk.old) (D.told disk.new) SameFiles }
    ensures cause { HasCause (D.told disk.old).faults (D.told disk.new).faults (result ≡ Err LogRefusal.DiskFault) }
{
    body.clear();
    let next = match log.frame_at(disk, place, body) {
        Ok(next) => next,
        Err(refusal) => return Err(of_gate(refusal, LOG)),
    };
    match tell_body(alloc, reader, body, text) {
        Ok(true) => Ok(next),
        Ok(false) => Err(damaged(place)),
        Err(_) => Err(LogRefusal::Memory),
    }
}

/// The text of all frames, one body in memory at a time.
pub(crate) fn tell_frames<D: Disk>(
    alloc: Global,
    disk: &mut D,
    log: &GateLog,
) -> Result<Vec<u8>, LogRefusal>
    requires file { file_of log.now ≡ log_file }
    requires known { D.tells_content → IsLogOf (D.told disk.old) log.now }

    ensures told { D.tells_content → IfOk result (λ text. IsReadBack ((D.told disk.old).content (file_of log.now)) text.items) }
    ensures named { D.tells_content → IfErr result (λ refusal. IfNamed refusal ⊥ (λ file at. (file ≡ log_file) × HasBadFrameAt ((D.told disk.old).content (file_of log.now)) at)) }

    ensures content { SameFiles (D.told disk.old).content (D.told disk.new).content }
    ensures stops { EachStop (D.told disk.old) (D.told disk.new) SameFiles }
    ensures cause { HasCause (D.told disk.old).faults (D.told disk.new).faults (result ≡ Err LogRefusal.DiskFault) }
{
    let Ok(mut reader) = Reader::new(alloc) else {
        return Err(LogRefusal::Memory);
    };
    let mut text = Vec::new(alloc);
    let mut body = Vec::new(alloc);
    let mut place = GatePlace { gate: 0, at: 0 };
    while place.gate < log.frames() {
        place = match tell_frame(alloc, disk, log, place, &mut body, &mut reader, &mut text) {
            Ok(next) => next,
            Err(refusal) => return Err(refusal),
        };
    }
    Ok(text)
}

// Frames that are added to the log.
ghost use Rattle.std.specs.Prelude.{◌≡◌, ◌≢◌, ◌<◌, ◌++◌, [], ◌∷◌, length, IfSome, OnOk};
ghost use Rattle.wat_disk.specs.Disk.{IsSynced, InFile, SameOthers, EachStop, MakesAtMost, MakesCalls};
ghost use Rattle.wat_faults.specs.Faults.{HasCause};
ghost use Rattle.wat_gate.specs.Bodies.{KeepsOrAdds};
ghost use Rattle.wat_gate.specs.GateLog.{file_of, bodies_in, HasRoom, IsLogOf};
ghost use Rattle.wat_log_record.specs.Encoding.{record_bytes, IsEncodableRecord, IsWritable, IsWritableSchema};
ghost use Rattle.wat_commit_log.specs.Logged.{IsFramed, OfSchema, body_of};

use std::alloc::{AllocError, Global};
use wat_disk::Disk;
use wat_gate::{Frame, GateLog};
use wat_list::{Copied, NoMemory};
use wat_record::{LogRecord, write_record};
use wat_value::SchemaChange;

/// A frame's body has at most so many bytes.
const MOST_BODY: usize = 2000000;

/// Why a transaction was not put on the disk.
#[derive(Clone, Copy, Debug, PartialEq, Eq)]
pub enum SaveRefusal {
    /// A call on the disk has failed.
    DiskFault,
    Memory,
}

// Adds a record at the end of the frame. A body that would be too long wants memory.
fn push_record(alloc: Global, entry: &LogRecord, frame: &mut Frame) -> Result<(), NoMemory>
    requires { IsWritable entry.now }
    ensures body { OnOk result (frame.new.body ≡ frame.old.body ++ record_bytes entry.now) }
    ensures encodable { OnOk result (IsEncodableRecord entry.now) }
{
    let mut bytes = Vec::new(alloc);
    write_record(entry, &mut bytes)?;
    if frame.len() > MOST_BODY || bytes.len() > MOST_BODY - frame.len() {
        return Err(AllocError);
    }
    frame.push(&bytes)
}

// The frame with the record behind, where there is memory and the log has room for it.
#[tactic(auto, using(crate::proofs::PendingLemmas::some_record))]
fn filled(alloc: Global, entry: &LogRecord, frame: Frame, log: &GateLog) -> Option<Frame>
    requires { IsWritable entry.now }
    ensures body { IfSome result (λ filled. filled.body ≡ frame.body ++ record_bytes entry.now) }
    ensures some { IfSome result (λ filled. 0 < length filled.body) }
    ensures room { IfSome result (λ filled. HasRoom log.now filled.body) }
    ensures encodable { IfSome result (λ filled. IsEncodableRecord entry.now) }
{
    let mut frame = frame;
    match push_record(alloc, entry, &mut frame) {
        Ok(()) => {}
        Err(_) => return None,
    }
    if !log.has_room(&frame) {
        return None;
    }
    Some(frame)
}

// Adds the frame to the log, with the record behind.
pub(crate) fn append<D: Disk>(
    alloc: Global,
    entry: &LogRecord,
    frame: Frame,
    log: &mut GateLog,
    disk: &mut D,
) -> Result<(), SaveRefusal>
    requires known { D.tells_content → IsLogOf (D.told disk.old) log.old }
    requires writable { IsWritable entry.now }

    ensures known { D.tells_content → OnOk result (IsLogOf (D.told disk.new) log.new) }
    ensures added { D.tells_content → OnOk result (bodies_in (D.told disk.new) log.new ≡ bodies_in (D.told disk.old) log.old ++ (frame.body ++ record_bytes entry.now) ∷ []) }
    ensures encodable { result ≢ Err SaveRefusal.Memory → IsEncodableRecord entry.now }
    ensures synced { OnOk result (IsSynced (D.told disk.new) (file_of log.new)) }
    ensures file { file_of log.new ≡ file_of log.old }
    ensures others { SameOthers (file_of log.old) (D.told disk.old).content (D.told disk.new).content }
    ensures stops { D.tells_content → IsSynced (D.told disk.old) (file_of log.old)
        → EachStop (D.told disk.old) (D.told disk.new) (InFile (file_of log.old) (KeepsOrAdds (frame.body ++ record_bytes entry.now))) }
    ensures calls { OnOk result (MakesCalls 4 (D.told disk.old) (D.told disk.new)) }
    ensures calls_at_most { MakesAtMost 4 (D.told disk.old) (D.told disk.new) }
    ensures cause { HasCause (D.told disk.old).faults (D.told disk.new).faults (result ≡ Err SaveRefusal.DiskFault) }
    ensures memory { result ≡ Err SaveRefusal.Memory → disk.new ≡ disk.old }
{
    match filled(alloc, entry, frame, log) {
        Some(frame) => match log.append(disk, &frame) {
            Ok(()) => Ok(()),
            Err(_) => Err(SaveRefusal::DiskFault),
        },
        None => Err(SaveRefusal::Memory),
    }
}

/// Adds a frame of the schema change to the log. At `Ok` it is on the disk. All memory is taken before the first call on
/// the disk; a log that would not end below 2^64 wants memory too.
pub fn save_schema<D: Disk>(
    alloc: Global,
    change: &SchemaChange,
    log: &mut GateLog,
    disk: &mut D,
) -> Result<(), SaveRefusal>
    requires known { D.tells_content → IsLogOf (D.told disk.old) log.old }
    requires writable { IsWritableSchema change.now }

    ensures known { D.tells_content → OnOk result (IsLogOf (D.told disk.new) log.new) }
    ensures added { D.tells_content → OnOk result (bodies_in (D.told disk.new) log.new ≡ bodies_in (D.told disk.old) log.old ++ body_of (OfSchema change.now) ∷ []) }
    ensures framed { result ≢ Err SaveRefusal.Memory → IsFramed (OfSchema change.now) }
    ensures synced { OnOk result (IsSynced (D.told disk.new) (file_of log.new)) }
    ensures file { file_of log.new ≡ file_of log.old }
    ensures others { SameOthers (file_of log.old) (D.told disk.old).content (D.told disk.new).content }
    ensures stops { D.tells_content → IsSynced (D.told disk.old) (file_of log.old)
        → EachStop (D.told disk.old) (D.told disk.new) (InFile (file_of log.old) (KeepsOrAdds (body_of (OfSchema change.now)))) }
    ensures calls { OnOk result (MakesCalls 4 (D.told disk.old) (D.told disk.new)) }
    ensures calls_at_most { MakesAtMost 4 (D.told disk.old) (D.told disk.new) }
    ensures cause { HasCause (D.told disk.old).faults (D.told disk.new).faults (result ≡ Err SaveRefusal.DiskFault) }
    ensures memory { result ≡ Err SaveRefusal.Memory → disk.new ≡ disk.old }
{
    let Ok(copy) = change.copy(alloc) else {
        return Err(SaveRefusal::Memory);
    };
    let Ok(frame) = Frame::new(alloc) else {
        return Err(SaveRefusal::Memory);
    };
    append(alloc, &LogRecord::Schema(copy), frame, log, disk)
}

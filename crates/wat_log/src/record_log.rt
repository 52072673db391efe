// The transaction log over a gate log.
ghost use Rattle.std.specs.Prelude.{◌≡◌, ◌≢◌, ◌+◌, ◌*◌, ◌<◌, ◌≤◌, [], ◌∷◌, ◌++◌, List, length, true, IsOk, IsErr, OnOk, OnErr, IfOk, IfErr, IfSome, IfNone};
ghost use Rattle.std.specs.Bool.{OnTrue, OnFalse};
ghost use Rattle.wat_disk.specs.Disk.{IsSynced, InFile, SameFiles, SameOthers, EachStop, StillLeaves, MakesCalls, MakesAtMost};
ghost use Rattle.wat_faults.specs.Faults.{HasCause};
ghost use Rattle.wat_gate.specs.Bodies.{bodies, gate_place, IsBrokenAt, KeepsOrAdds};
ghost use Rattle.wat_gate.specs.GateLog.{body_at, IsGateOf, HasRoom};
ghost use Rattle.wat_gate.specs.Refusal.{IfDamaged};
ghost use Rattle.wat_log_record.specs.Encoding.{record_bytes, IsEncodableRecord, IsWritable};
ghost use Rattle.wat_log_record.specs.declared.log_record.LogRecord.{LogRecord as AnyRecord};
ghost use Rattle.wat_log_record.specs.declared.log_record.LogRecord.TheVariants as entry;
ghost use Rattle.wat_log.specs.Reading.{AddsRecords, SpellsNone};
ghost use Rattle.wat_log.specs.Room.{HasCommitRoom};

use crate::noting::{commit_bytes, grow, make_commit_room, push_within};
use crate::reading::read_records;
use std::alloc::Global;
use wat_disk::{Disk, DiskFault, FileId};
use wat_gate::{Frame, GateLog, GatePlace, GateRefusal};
use wat_list::NoMemory;
use wat_record::{LogRecord, LogRecords, write_record};

/// The file of the log.
pub const LOG: FileId = FileId(2);

/// The transaction log of a database, over the disk that each call is handed: the same one that the earlier calls were
/// handed.
///
/// A record that is noted stands in memory. `flush` and `commit` append all that is noted as one frame, so a stop leaves
/// the records that were flushed, or these and all of the noted ones. After a `DiskFault` the log is opened again.
#[derive(Drop)]
pub struct Log {
    alloc: Global,
    gate: GateLog,
    noted: Vec<u8>,
    frame: Frame,
    spare: usize,
    ghost known_file: { gate.file.0 ≡ 2 },
    ghost noted_in_frame: { frame.body ≡ noted.items },
    ghost short: { length noted.items ≤ 1948576 },
    ghost room: { 0 < length noted.items → HasRoom gate noted.items },
    ghost commit_fits: { 0 < spare → 3 ≤ frame.spare },
    ghost commit_room: { 0 < spare → HasCommitRoom gate noted.items },
}

/// Takes away what is noted.
fn forget(noted: &mut Vec<u8>, frame: &mut Frame)
    ensures noted { noted.new.items ≡ [] }
    ensures frame { frame.new.body ≡ [] }
{
    noted.clear();
    frame.clear();
}

impl Log {
    ghost use Rattle.wat_log.specs.Log.{log_file, gate_of, log_frames, noted_bytes, spare_of, HasRecords, HasNoted, IsOpenLog};

    /// Opens the log of file 2, with nothing noted. It goes over the gates and reads no record. `Damaged` tells the gate at
    /// which the file is broken as a gate log.
    pub fn open<D: Disk>(alloc: Global, disk: &mut D) -> Result<Log, GateRefusal>
        ensures known { D.tells_content → IfOk result (IsOpenLog (D.told disk.new)) }
        ensures noted { IfOk result (λ log. noted_bytes log ≡ []) }
        ensures damaged { D.tells_content → IfErr result (λ refusal. IfDamaged refusal (IsBrokenAt ((D.told disk.old).content log_file))) }

        ensures content { SameFiles (D.told disk.old).content (D.told disk.new).content }
        ensures stops { EachStop (D.told disk.old) (D.told disk.new) SameFiles }
        ensures unsynced { StillLeaves (D.told disk.old) (D.told disk.new) }
        ensures calls { IfOk result (λ log. MakesCalls (2 * log_frames log + 2) (D.told disk.old) (D.told disk.new)) }
        ensures cause { HasCause (D.told disk.old).faults (D.told disk.new).faults (result ≡ Err GateRefusal.DiskFault) }
    {
        let gate = match GateLog::open(disk, LOG) {
            Ok(gate) => gate,
            Err(refusal) => return Err(refusal),
        };
        match Frame::new(alloc) {
            Ok(frame) => Ok(Log {
                alloc,
                gate,
                noted: Vec::new(alloc),
                frame,
                spare: 0,
            }),
            Err(_) => Err(GateRefusal::Memory),
        }
    }

    /// How many bytes are noted and not flushed.
    pub fn buffered(&self) -> usize
        ensures { result ≡ length (noted_bytes self.now) }
    {
        self.noted.len()
    }

    /// Notes a record of at most 900,000 bytes behind the others. It makes no call on a disk. Who notes past 1,048,576 bytes
    /// flushes next. A log that would end at 2^64 or past it is refused as want of memory. After a refusal nothing more is
    /// noted.
    pub fn note(&mut self, entry: &LogRecord) -> Result<(), NoMemory>
        requires writable { IsWritable entry.now }
        requires short { length (record_bytes entry.now) ≤ 900000 }
        requires buffered { length (noted_bytes self.old) ≤ 1048576 }

        ensures bytes { OnOk result (noted_bytes self.new ≡ noted_bytes self.old ++ record_bytes entry.now) }
        ensures noted { (noted : List AnyRecord) → HasNoted self.old noted → OnOk result (HasNoted self.new (noted ++ entry.now ∷ [])) }
        ensures refused { OnErr result (noted_bytes self.new ≡ noted_bytes self.old) }
        ensures gate { gate_of self.new ≡ gate_of self.old }
    {
        self.spare = 0;
        let held = self.noted.len();
        write_record(entry, &mut self.noted)?;
        let (before, record) = self.noted.split_at(held);
        match grow(&self.gate, &mut self.frame, before, record) {
            Ok(()) => Ok(()),
            Err(error) => {
                self.noted.truncate(held);
                Err(error)
            }
        }
    }

    /// Makes room for a Commit record behind what is noted now, so that `commit` takes no memory. A log that would end at
    /// 2^64 or past it is refused as want of memory.
    pub fn reserve(&mut self) -> Result<(), NoMemory>
        ensures room { OnOk result (1 ≤ spare_of self.new) }
        ensures bytes { noted_bytes self.new ≡ noted_bytes self.old }
        ensures gate { gate_of self.new ≡ gate_of self.old }
    {
        self.spare = 0;
        make_commit_room(&self.gate, &mut self.frame, &self.noted)?;
        self.spare = 1;
        Ok(())
    }

    /// Appends what is noted as one frame, in four calls: two writes, each with a sync. Where nothing is noted it makes no
    /// call. At `Ok` nothing is noted any more, and a stop later on leaves the records. It takes no memory.
    pub fn flush<D: Disk>(&mut self, disk: &mut D) -> Result<(), DiskFault>
        requires known { D.tells_content → IsOpenLog (D.told disk.old) self.old }

        ensures known { D.tells_content → OnOk result (IsOpenLog (D.told disk.new) self.new) }
        ensures noted { OnOk result (noted_bytes self.new ≡ []) }
        ensures added { D.tells_content → noted_bytes self.old ≢ [] → OnOk result (bodies ((D.told disk.new).content log_file) ≡ bodies ((D.told disk.old).content log_file) ++ noted_bytes self.old ∷ []) }
        ensures records { D.tells_content → (flushed noted : List AnyRecord) → HasRecords ((D.told disk.old).content log_file) flushed → HasNoted self.old noted
            → OnOk result (HasRecords ((D.told disk.new).content log_file) (flushed ++ noted)) }
        ensures synced { noted_bytes self.old ≢ [] → OnOk result (IsSynced (D.told disk.new) log_file) }
        ensures others { SameOthers log_file (D.told disk.old).content (D.told disk.new).content }

        // A stop at any moment of the call leaves the frames from before it, with the one of what is noted or without.
        ensures stops { D.tells_content → noted_bytes self.old ≢ [] → IsSynced (D.told disk.old) log_file
            → EachStop (D.told disk.old) (D.told disk.new) (InFile log_file (KeepsOrAdds (noted_bytes self.old))) }

        ensures nothing { noted_bytes self.old ≡ [] → (IsOk result) × (disk.new ≡ disk.old) }
        ensures calls { noted_bytes self.old ≢ [] → OnOk result (MakesCalls 4 (D.told disk.old) (D.told disk.new)) }
        ensures calls_at_most { MakesAtMost 4 (D.told disk.old) (D.told disk.new) }
        ensures cause { HasCause (D.told disk.old).faults (D.told disk.new).faults (IsErr result) }
    {
        if self.noted.is_empty() {
            return Ok(());
        }
        let appended = self.gate.append(disk, &self.frame);
        forget(&mut self.noted, &mut self.frame);
        self.spare = 0;
        appended
    }

    /// Appends what is noted and a Commit record of the connection as one frame, in four calls: two writes, each with a
    /// sync. At `Ok` nothing is noted any more, and a stop later on leaves the commit. It takes no memory.
    pub fn commit<D: Disk>(&mut self, disk: &mut D, conn: u16) -> Result<(), DiskFault>
        requires known { D.tells_content → IsOpenLog (D.told disk.old) self.old }
        requires room { 1 ≤ spare_of self.old }

        ensures known { D.tells_content → OnOk result (IsOpenLog (D.told disk.new) self.new) }
        ensures noted { OnOk result (noted_bytes self.new ≡ []) }
        ensures added { D.tells_content → OnOk result (bodies ((D.told disk.new).content log_file) ≡ bodies ((D.told disk.old).content log_file) ++ (noted_bytes self.old ++ record_bytes (entry.Commit conn)) ∷ []) }
        ensures records { D.tells_content → (flushed noted : List AnyRecord) → HasRecords ((D.told disk.old).content log_file) flushed → HasNoted self.old noted
            → OnOk result (HasRecords ((D.told disk.new).content log_file) (flushed ++ (noted ++ entry.Commit conn ∷ []))) }
        ensures synced { OnOk result (IsSynced (D.told disk.new) log_file) }
        ensures others { SameOthers log_file (D.told disk.old).content (D.told disk.new).content }

        // A stop at any moment of the call leaves the frames from before it, with the one of the commit or without.
        ensures stops { D.tells_content → IsSynced (D.told disk.old) log_file
            → EachStop (D.told disk.old) (D.told disk.new) (InFile log_file (KeepsOrAdds (noted_bytes self.old ++ record_bytes (entry.Commit conn)))) }

        ensures calls { OnOk result (MakesCalls 4 (D.told disk.old) (D.told disk.new)) }
        ensures calls_at_most { MakesAtMost 4 (D.told disk.old) (D.told disk.new) }
        ensures cause { HasCause (D.told disk.old).faults (D.told disk.new).faults (IsErr result) }
    {
        push_within(&mut self.frame, &commit_bytes(conn));
        let committed = self.gate.append(disk, &self.frame);
        forget(&mut self.noted, &mut self.frame);
        self.spare = 0;
        committed
    }

    /// How many frames the log has.
    pub fn frames(&self) -> u64
        ensures { result ≡ log_frames self.now }
    {
        self.gate.frames()
    }

    /// The place of gate i in the file, which is that of frame i, or of the closed gate behind the last frame. For the last
    /// gate it makes no call; for another it goes from gate to gate.
    pub fn place<D: Disk>(&self, disk: &mut D, i: u64) -> Result<u64, GateRefusal>
        requires known { D.tells_content → IsOpenLog (D.told disk.old) self.now }
        requires gate { i ≤ log_frames self.now }

        ensures place { D.tells_content → IfOk result (λ at. at ≡ gate_place ((D.told disk.old).content log_file) i) }
        ensures undamaged { D.tells_content → IfErr result (λ refusal. IfDamaged refusal (λ at. ⊥)) }

        ensures known { D.tells_content → IsOpenLog (D.told disk.new) self.now }
        ensures content { SameFiles (D.told disk.old).content (D.told disk.new).content }
        ensures stops { EachStop (D.told disk.old) (D.told disk.new) SameFiles }
        ensures unsynced { StillLeaves (D.told disk.old) (D.told disk.new) }
        ensures calls { i < log_frames self.now → OnOk result (MakesCalls (2 * i + 1) (D.told disk.old) (D.told disk.new)) }
        ensures last { i ≡ log_frames self.now → IsOk result }
        ensures last_kept { i ≡ log_frames self.now → disk.new ≡ disk.old }
        ensures cause { HasCause (D.told disk.old).faults (D.told disk.new).faults (result ≡ Err GateRefusal.DiskFault) }
    {
        self.gate.place(disk, i)
    }

    /// Adds the records of frame i to `into`; `false` exactly where the frame's body spells no records. Else than after
    /// `Ok(true)` `into` is as before. It goes from gate to gate up to the frame; who reads one frame after another takes
    /// `records_at`.
    pub fn records<D: Disk>(
        &self,
        disk: &mut D,
        i: u64,
        into: &mut LogRecords,
    ) -> Result<bool, GateRefusal>
        requires known { D.tells_content → IsOpenLog (D.told disk.old) self.now }
        requires frame { i < log_frames self.now }

        ensures read { D.tells_content → IfOk result (λ read. OnTrue read (AddsRecords (body_at (D.told disk.old) (gate_of self.now) i) into.old into.new)) }
        ensures none { D.tells_content → IfOk result (λ read. OnFalse read (SpellsNone (body_at (D.told disk.old) (gate_of self.now) i))) }
        ensures kept { result ≢ Ok true → into.new ≡ into.old }
        ensures undamaged { D.tells_content → IfErr result (λ refusal. IfDamaged refusal (λ at. ⊥)) }

        ensures known { D.tells_content → IsOpenLog (D.told disk.new) self.now }
        ensures content { SameFiles (D.told disk.old).content (D.told disk.new).content }
        ensures stops { EachStop (D.told disk.old) (D.told disk.new) SameFiles }
        ensures unsynced { StillLeaves (D.told disk.old) (D.told disk.new) }
        ensures calls { OnOk result (MakesCalls (2 * i + 5) (D.told disk.old) (D.told disk.new)) }
        ensures cause { HasCause (D.told disk.old).faults (D.told disk.new).faults (result ≡ Err GateRefusal.DiskFault) }
    {
        let at = match self.gate.place(disk, i) {
            Ok(at) => at,
            Err(refusal) => return Err(refusal),
        };
        match self.records_at(disk, GatePlace { gate: i, at }, into) {
            Ok(Some(_)) => Ok(true),
            Ok(None) => Ok(false),
            Err(refusal) => Err(refusal),
        }
    }

    /// Adds the records of the frame at a gate to `into`, and answers the next gate; `None` exactly where the frame's body
    /// spells no records. Else than after a gate `into` is as before. Gate 0 is at place 0, so all frames are read by four
    /// calls each.
    pub fn records_at<D: Disk>(
        &self,
        disk: &mut D,
        place: GatePlace,
        into: &mut LogRecords,
    ) -> Result<Option<GatePlace>, GateRefusal>
        requires known { D.tells_content → IsOpenLog (D.told disk.old) self.now }
        requires place { D.tells_content → IsGateOf (D.told disk.old) (gate_of self.now) place }
        requires frame { place.gate < log_frames self.now }

        ensures read { D.tells_content → IfOk result (λ next. IfSome next (λ gate. AddsRecords (body_at (D.told disk.old) (gate_of self.now) place.gate) into.old into.new)) }
        ensures none { D.tells_content → IfOk result (λ next. IfNone next (SpellsNone (body_at (D.told disk.old) (gate_of self.now) place.gate))) }
        ensures next { D.tells_content → IfOk result (λ next. IfSome next (IsGateOf (D.told disk.new) (gate_of self.now))) }
        ensures one_more { IfOk result (λ next. IfSome next (λ gate. gate.gate ≡ place.gate + 1)) }
        ensures unread { IfOk result (λ next. IfNone next (into.new ≡ into.old)) }
        ensures refused { OnErr result (into.new ≡ into.old) }
        ensures undamaged { D.tells_content → IfErr result (λ refusal. IfDamaged refusal (λ at. ⊥)) }

        ensures known { D.tells_content → IsOpenLog (D.told disk.new) self.now }
        ensures content { SameFiles (D.told disk.old).content (D.told disk.new).content }
        ensures stops { EachStop (D.told disk.old) (D.told disk.new) SameFiles }
        ensures unsynced { StillLeaves (D.told disk.old) (D.told disk.new) }
        ensures calls { OnOk result (MakesCalls 4 (D.told disk.old) (D.told disk.new)) }
        ensures cause { HasCause (D.told disk.old).faults (D.told disk.new).faults (result ≡ Err GateRefusal.DiskFault) }
    {
        let mut body = Vec::new(self.alloc);
        let next = match self.gate.frame_at(disk, place, &mut body) {
            Ok(next) => next,
            Err(refusal) => return Err(refusal),
        };
        match read_records(self.alloc, &body, into) {
            Ok(true) => Ok(Some(next)),
            Ok(false) => Ok(None),
            Err(_) => Err(GateRefusal::Memory),
        }
    }
}

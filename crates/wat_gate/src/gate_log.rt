// A gate log: open gates with their frames, and a closed gate behind them. A frame is written behind the closed gate
// and synced, and then the gate is opened by a write of its own, and synced.
ghost use Rattle.std.specs.Prelude.{◌≡◌, ◌↔◌, ◌+◌, ◌*◌, ◌<◌, ◌≤◌, ◌^◌, ◌⊎◌, [], ◌∷◌, ◌++◌, take, drop, slice_index, slice_range, length, OnOk, OnErr, IfOk, IfErr, MatchOption, IsOk, IsErr, IsTrue};
ghost use Rattle.wat_disk.specs.Disk.{IsSynced, InFile, SameFiles, SameOthers, EachStop, StillLeaves, MakesCalls, MakesAtMost};
ghost use Rattle.wat_faults.specs.Faults.{HasCause};
ghost use Rattle.wat_gate.specs.Bodies.{KeepsOrAdds, KeepsOrClears, IsBrokenAt, gate_place};
ghost use Rattle.wat_gate.specs.Gates.{IsClosedGate, IsOpenGate, IsBrokenGate};
ghost use Rattle.std.specs.Int.{w32, from_be_bytes};
ghost use Rattle.wat_gate.specs.Refusal.{IfDamaged};
ghost use Rattle.wat_gate.specs.Written.{appended, cleared};

use crate::Frame;
use wat_disk::{Disk, DiskError, DiskFault, FileId, write_synced};

const OPEN_GATE: u8 = 0xA5;

const MAX_BODY: u64 = 2_000_000;

/// Why a gate log isn't read.
#[derive(Clone, Copy, Debug, PartialEq, Eq)]
pub enum GateRefusal {
    /// A call on the disk failed.
    DiskFault,
    /// The log is broken at the gate at this place, in bytes from the file's start.
    Damaged { at: u64 },
    /// No memory was left.
    Memory,
}

/// A gate of a log: its number, which is that of the frames before it, and its place in the file.
#[derive(Clone, Copy, Debug, PartialEq, Eq)]
pub struct GatePlace {
    pub gate: u64,
    pub at: u64,
}

/// A log of frames in one file of a disk. Each of its calls is handed the disk that the earlier ones were handed.
#[derive(Drop)]
pub struct GateLog {
    file: FileId,
    frames: u64,
    end: u64,
    ghost known_file: { file.0 < 8 },
    ghost counted: { frames ≤ end },
    ghost in_range: { end + 1 < 2 ^ 64 },
}

impl GateLog {
    ghost use Rattle.wat_gate.specs.GateLog.{file_of, frames_of, bodies_in, body_at, IsLogOf, IsGateOf, HasRoom};

    /// Reads the gates of a file one after another, and changes nothing: two calls and two more for each frame. `Damaged`
    /// tells the gate at which the log is broken: one that isn't in the file, or that is open and has no whole frame with a
    /// next gate behind it.
    pub fn open<D: Disk>(disk: &mut D, file: FileId) -> Result<GateLog, GateRefusal>
        requires { file.0 < 8 }

        ensures known { D.tells_content → IfOk result (λ log. IsLogOf (D.told disk.new) log) }
        ensures file { IfOk result (λ log. file_of log ≡ file.0) }
        ensures damaged { D.tells_content → IfErr result (λ refusal. IfDamaged refusal (IsBrokenAt ((D.told disk.old).content file.0))) }

        ensures content { SameFiles (D.told disk.old).content (D.told disk.new).content }
        ensures stops { EachStop (D.told disk.old) (D.told disk.new) SameFiles }
        ensures unsynced { StillLeaves (D.told disk.old) (D.told disk.new) }
        ensures calls { IfOk result (λ log. MakesCalls (2 * frames_of log + 2) (D.told disk.old) (D.told disk.new)) }
        ensures cause { HasCause (D.told disk.old).faults (D.told disk.new).faults (result ≡ Err GateRefusal.DiskFault) }
    {
        let len = disk.length(file).map_err(|e| refusal(e, 0))?;
        let mut at = 0;
        let mut frames = 0;
        while let Some(next) = next_gate(disk, file, at, len)? {
            at = next;
            frames += 1;
        }
        Ok(GateLog {
            file,
            frames,
            end: at,
        })
    }

    /// How many frames it has.
    pub fn frames(&self) -> u64
        ensures { result ≡ frames_of self.now }
    {
        self.frames
    }

    /// The place of gate i, which is that of frame i, or of the closed gate behind the last frame. The log keeps the place
    /// of the last gate, and makes no call for it; for another it goes from gate to gate. Over a disk that tells its content
    /// it never answers `Damaged`.
    pub fn place<D: Disk>(&self, disk: &mut D, i: u64) -> Result<u64, GateRefusal>
        requires known { D.tells_content → IsLogOf (D.told disk.old) self.now }
        requires gate { i ≤ frames_of self.now }

        ensures place { D.tells_content → IfOk result (λ at. at ≡ gate_place ((D.told disk.old).content (file_of self.now)) i) }
        ensures undamaged { D.tells_content → IfErr result (λ refusal. IfDamaged refusal (λ at. ⊥)) }

        ensures known { D.tells_content → IsLogOf (D.told disk.new) self.now }
        ensures content { SameFiles (D.told disk.old).content (D.told disk.new).content }
        ensures stops { EachStop (D.told disk.old) (D.told disk.new) SameFiles }
        ensures unsynced { StillLeaves (D.told disk.old) (D.told disk.new) }
        ensures calls { i < frames_of self.now → OnOk result (MakesCalls (2 * i + 1) (D.told disk.old) (D.told disk.new)) }
        ensures last { i ≡ frames_of self.now → IsOk result }
        ensures last_kept { i ≡ frames_of self.now → disk.new ≡ disk.old }
        ensures cause { HasCause (D.told disk.old).faults (D.told disk.new).faults (result ≡ Err GateRefusal.DiskFault) }
    {
        if i == self.frames {
            return Ok(self.end);
        }
        let file = self.file;
        let len = disk.length(file).map_err(|e| refusal(e, 0))?;
        let mut at = 0;
        for passed in 0..i {
            match next_gate(disk, file, at, len)? {
                Some(next) => at = next,
                None => return Err(GateRefusal::Damaged { at }),
            }
        }
        Ok(at)
    }

    /// Appends the body of frame i to `into`, which is as before after a refusal. It goes from gate to gate up to the
    /// frame; who reads one frame after another takes `frame_at`.
    pub fn frame<D: Disk>(
        &self,
        disk: &mut D,
        i: u64,
        into: &mut Vec<u8>,
    ) -> Result<(), GateRefusal>
        requires known { D.tells_content → IsLogOf (D.told disk.old) self.now }
        requires frame { i < frames_of self.now }

        ensures body { D.tells_content → OnOk result (into.new.items ≡ into.old.items ++ body_at (D.told disk.old) self.now i) }
        ensures refused { OnErr result (into.new.items ≡ into.old.items) }
        ensures undamaged { D.tells_content → IfErr result (λ refusal. IfDamaged refusal (λ at. ⊥)) }

        ensures known { D.tells_content → IsLogOf (D.told disk.new) self.now }
        ensures content { SameFiles (D.told disk.old).content (D.told disk.new).content }
        ensures stops { EachStop (D.told disk.old) (D.told disk.new) SameFiles }
        ensures unsynced { StillLeaves (D.told disk.old) (D.told disk.new) }
        ensures calls { OnOk result (MakesCalls (2 * i + 5) (D.told disk.old) (D.told disk.new)) }
        ensures cause { HasCause (D.told disk.old).faults (D.told disk.new).faults (result ≡ Err GateRefusal.DiskFault) }
    {
        let at = match self.place(disk, i) {
            Ok(at) => at,
            Err(refusal) => return Err(refusal),
        };
        match self.frame_at(disk, GatePlace { gate: i, at }, into) {
            Ok(_) => Ok(()),
            Err(refusal) => Err(refusal),
        }
    }

    /// Appends the body of the frame at a gate to `into`, which is as before after a refusal, and answers the next gate.
    /// Gate 0 is at place 0, so all frames are read by as many calls.
    pub fn frame_at<D: Disk>(
        &self,
        disk: &mut D,
        place: GatePlace,
        into: &mut Vec<u8>,
    ) -> Result<GatePlace, GateRefusal>
        requires known { D.tells_content → IsLogOf (D.told disk.old) self.now }
        requires place { D.tells_content → IsGateOf (D.told disk.old) self.now place }
        requires frame { place.gate < frames_of self.now }

        ensures body { D.tells_content → OnOk result (into.new.items ≡ into.old.items ++ body_at (D.told disk.old) self.now place.gate) }
        ensures next { D.tells_content → IfOk result (λ next. IsGateOf (D.told disk.new) self.now next) }
        ensures one_more { IfOk result (λ next. next.gate ≡ place.gate + 1) }
        ensures refused { OnErr result (into.new.items ≡ into.old.items) }
        ensures undamaged { D.tells_content → IfErr result (λ refusal. IfDamaged refusal (λ at. ⊥)) }

        ensures known { D.tells_content → IsLogOf (D.told disk.new) self.now }
        ensures content { SameFiles (D.told disk.old).content (D.told disk.new).content }
        ensures stops { EachStop (D.told disk.old) (D.told disk.new) SameFiles }
        ensures unsynced { StillLeaves (D.told disk.old) (D.told disk.new) }
        ensures calls { OnOk result (MakesCalls 4 (D.told disk.old) (D.told disk.new)) }
        ensures cause { HasCause (D.told disk.old).faults (D.told disk.new).faults (result ≡ Err GateRefusal.DiskFault) }
    {
        let at = place.at;
        let next = match next_place(disk, self.file, at) {
            Ok(next) => next,
            Err(refusal) => return Err(refusal),
        };
        match read_more(disk, self.file, at + 5, (next - at - 5) as usize, into) {
            Ok(()) => Ok(GatePlace {
                gate: place.gate + 1,
                at: next,
            }),
            Err(refusal) => Err(refusal),
        }
    }

    /// Whether the log ends below 2^64 with this frame too, as `append` needs. It is so for all logs that a disk of today holds.
    pub fn has_room(&self, frame: &Frame) -> bool
        ensures { IsTrue result ↔ HasRoom self.now frame.now.body }
    {
        (frame.as_written().len() as u64) < u64::MAX - self.end
    }

    /// Adds a frame, whose body isn't empty. At `Ok` it is on the disk, and a stop later on leaves it. It takes no memory.
    /// It makes four calls: the frame is written behind the closed gate and synced, and the gate is opened and synced.
    /// After a `DiskFault` the log is opened again.
    pub fn append<D: Disk>(&mut self, disk: &mut D, frame: &Frame) -> Result<(), DiskFault>
        requires known { D.tells_content → IsLogOf (D.told disk.old) self.old }
        requires body { 0 < length frame.now.body }
        requires room { HasRoom self.old frame.now.body }

        ensures known { D.tells_content → OnOk result (IsLogOf (D.told disk.new) self.new) }
        ensures added { D.tells_content → OnOk result (bodies_in (D.told disk.new) self.new ≡ bodies_in (D.told disk.old) self.old ++ frame.now.body ∷ []) }
        ensures bytes { D.tells_content → OnOk result ((D.told disk.new).content (file_of self.old) ≡ appended ((D.told disk.old).content (file_of self.old)) frame.now.body) }
        ensures synced { OnOk result (IsSynced (D.told disk.new) (file_of self.new)) }
        ensures file { file_of self.new ≡ file_of self.old }
        ensures others { SameOthers (file_of self.old) (D.told disk.old).content (D.told disk.new).content }

        // A stop at any moment of the call leaves the frames from before it, with the new one or without.
        ensures stops { D.tells_content → IsSynced (D.told disk.old) (file_of self.old)
            → EachStop (D.told disk.old) (D.told disk.new) (InFile (file_of self.old) (KeepsOrAdds frame.now.body)) }

        ensures calls { OnOk result (MakesCalls 4 (D.told disk.old) (D.told disk.new)) }
        ensures calls_at_most { MakesAtMost 4 (D.told disk.old) (D.told disk.new) }
        ensures cause { HasCause (D.told disk.old).faults (D.told disk.new).faults (IsErr result) }
    {
        let bytes = frame.as_written();
        write_synced(disk, self.file, self.end + 1, bytes)?;
        write_synced(disk, self.file, self.end, &[OPEN_GATE])?;
        self.frames += 1;
        self.end += bytes.len() as u64;
        Ok(())
    }

    /// Takes all frames away; at `Ok` none is left by a later stop. It takes no memory. The first gate is closed and synced,
    /// two calls; a log without frames is synced and not written, one call. After a `DiskFault` the log is opened again.
    pub fn clear<D: Disk>(&mut self, disk: &mut D) -> Result<(), DiskFault>
        requires known { D.tells_content → IsLogOf (D.told disk.old) self.old }

        ensures known { D.tells_content → OnOk result (IsLogOf (D.told disk.new) self.new) }
        ensures cleared { D.tells_content → OnOk result (bodies_in (D.told disk.new) self.new ≡ []) }
        ensures bytes { D.tells_content → 0 < frames_of self.old → OnOk result ((D.told disk.new).content (file_of self.old) ≡ cleared ((D.told disk.old).content (file_of self.old))) }
        ensures unwritten { frames_of self.old ≡ 0 → SameFiles (D.told disk.old).content (D.told disk.new).content }
        ensures synced { OnOk result (IsSynced (D.told disk.new) (file_of self.new)) }
        ensures file { file_of self.new ≡ file_of self.old }
        ensures others { SameOthers (file_of self.old) (D.told disk.old).content (D.told disk.new).content }

        // A stop at any moment of the call leaves all frames or none.
        ensures stops { D.tells_content → IsSynced (D.told disk.old) (file_of self.old)
            → EachStop (D.told disk.old) (D.told disk.new) (InFile (file_of self.old) KeepsOrClears) }

        ensures calls { 0 < frames_of self.old → OnOk result (MakesCalls 2 (D.told disk.old) (D.told disk.new)) }
        ensures calls_unwritten { frames_of self.old ≡ 0 → OnOk result (MakesCalls 1 (D.told disk.old) (D.told disk.new)) }
        ensures calls_at_most { MakesAtMost 2 (D.told disk.old) (D.told disk.new) }
        ensures cause { HasCause (D.told disk.old).faults (D.told disk.new).faults (IsErr result) }
    {
        // A gate that is closed already isn't written: torn, that write could open it before old bytes.
        if self.frames == 0 {
            return disk.sync(self.file).map_err(|_| DiskFault);
        }
        write_synced(disk, self.file, 0, &[0])?;
        self.frames = 0;
        self.end = 0;
        Ok(())
    }
}

fn refusal(error: DiskError, at: u64) -> GateRefusal
    ensures fault { result ≡ GateRefusal.DiskFault ↔ error ≡ DiskError.Failed }
    ensures past { IfDamaged result (λ place. error ≡ DiskError.Past) }
{
    match error {
        DiskError::Failed => GateRefusal::DiskFault,
        DiskError::Past => GateRefusal::Damaged { at },
        DiskError::Memory => GateRefusal::Memory,
    }
}

fn byte_at<D: Disk>(disk: &mut D, file: FileId, at: u64) -> Result<u8, GateRefusal>
    requires { file.0 < 8 }
    ensures byte { D.tells_content → IfOk result (λ byte. byte ≡ slice_index ((D.told disk.old).content file.0) at) }
    ensures damaged { D.tells_content → IfErr result (λ refusal. IfDamaged refusal (λ place. length ((D.told disk.old).content file.0) ≤ at)) }
    ensures content { SameFiles (D.told disk.old).content (D.told disk.new).content }
    ensures stops { EachStop (D.told disk.old) (D.told disk.new) SameFiles }
    ensures unsynced { StillLeaves (D.told disk.old) (D.told disk.new) }
    ensures calls { OnOk result (MakesCalls 1 (D.told disk.old) (D.told disk.new)) }
    ensures cause { HasCause (D.told disk.old).faults (D.told disk.new).faults (result ≡ Err GateRefusal.DiskFault) }
{
    let mut byte = [0; 1];
    match disk.read(file, at, &mut byte) {
        Ok(()) => Ok(byte[0]),
        Err(error) => Err(refusal(error, at)),
    }
}

// The length that is told behind a gate.
fn length_behind<D: Disk>(disk: &mut D, file: FileId, at: u64) -> Result<u32, GateRefusal>
    requires file { file.0 < 8 }
    requires range { at + 1 < 2 ^ 64 }
    ensures value { D.tells_content → IfOk result (λ n. n ≡ from_be_bytes w32 (take 4 (drop (at + 1) ((D.told disk.old).content file.0)))) }
    ensures damaged { D.tells_content → IfErr result (λ refusal. IfDamaged refusal (λ place. length ((D.told disk.old).content file.0) < at + 5)) }
    ensures content { SameFiles (D.told disk.old).content (D.told disk.new).content }
    ensures stops { EachStop (D.told disk.old) (D.told disk.new) SameFiles }
    ensures unsynced { StillLeaves (D.told disk.old) (D.told disk.new) }
    ensures calls { OnOk result (MakesCalls 1 (D.told disk.old) (D.told disk.new)) }
    ensures cause { HasCause (D.told disk.old).faults (D.told disk.new).faults (result ≡ Err GateRefusal.DiskFault) }
{
    let mut bytes = [0; 4];
    match disk.read(file, at + 1, &mut bytes) {
        Ok(()) => Ok(u32::from_be_bytes(bytes)),
        Err(error) => Err(refusal(error, at)),
    }
}

// The place of the next gate, where the gate at a place is open.
fn next_gate<D: Disk>(
    disk: &mut D,
    file: FileId,
    at: u64,
    len: u64,
) -> Result<Option<u64>, GateRefusal>
    requires file { file.0 < 8 }
    requires len { D.tells_content → len ≡ length ((D.told disk.old).content file.0) }
    ensures found { D.tells_content → IfOk result (λ next. MatchOption next (IsClosedGate ((D.told disk.old).content file.0) at) (IsOpenGate ((D.told disk.old).content file.0) at)) }
    ensures damaged { D.tells_content → IfErr result (λ refusal. IfDamaged refusal (λ place. (place ≡ at) × IsBrokenGate ((D.told disk.old).content file.0) at)) }
    ensures further { IfOk result (λ next. MatchOption next (at < len) (λ n. (at + 5 < n) × (n < len) × (n ≤ at + 2000005))) }
    ensures content { SameFiles (D.told disk.old).content (D.told disk.new).content }
    ensures stops { EachStop (D.told disk.old) (D.told disk.new) SameFiles }
    ensures unsynced { StillLeaves (D.told disk.old) (D.told disk.new) }
    ensures calls { IfOk result (λ next. MatchOption next (MakesCalls 1 (D.told disk.old) (D.told disk.new)) (λ n. MakesCalls 2 (D.told disk.old) (D.told disk.new))) }
    ensures cause { HasCause (D.told disk.old).faults (D.told disk.new).faults (result ≡ Err GateRefusal.DiskFault) }
{
    if at >= len {
        return Err(GateRefusal::Damaged { at });
    }
    if byte_at(disk, file, at)? != OPEN_GATE {
        return Ok(None);
    }
    if len - at < 5 {
        return Err(GateRefusal::Damaged { at });
    }
    let body = u64::from(length_behind(disk, file, at)?);
    if body == 0 || body > MAX_BODY || body >= len - at - 5 {
        return Err(GateRefusal::Damaged { at });
    }
    Ok(Some(at + 5 + body))
}

// The place of the gate behind the frame at a gate.
fn next_place<D: Disk>(disk: &mut D, file: FileId, at: u64) -> Result<u64, GateRefusal>
    requires { file.0 < 8 }
    ensures found { D.tells_content → IfOk result (IsOpenGate ((D.told disk.old).content file.0) at) }
    ensures damaged { D.tells_content → IfErr result (λ refusal. IfDamaged refusal (λ place. IsClosedGate ((D.told disk.old).content file.0) at ⊎ IsBrokenGate ((D.told disk.old).content file.0) at)) }
    ensures further { IfOk result (λ next. (at + 5 < next) × (next ≤ at + 2000005) × (next < 2 ^ 64)) }
    ensures content { SameFiles (D.told disk.old).content (D.told disk.new).content }
    ensures stops { EachStop (D.told disk.old) (D.told disk.new) SameFiles }
    ensures unsynced { StillLeaves (D.told disk.old) (D.told disk.new) }
    ensures calls { OnOk result (MakesCalls 3 (D.told disk.old) (D.told disk.new)) }
    ensures cause { HasCause (D.told disk.old).faults (D.told disk.new).faults (result ≡ Err GateRefusal.DiskFault) }
{
    let len = match disk.length(file) {
        Ok(len) => len,
        Err(error) => return Err(refusal(error, at)),
    };
    match next_gate(disk, file, at, len) {
        Ok(Some(next)) => Ok(next),
        Ok(None) => Err(GateRefusal::Damaged { at }),
        Err(refusal) => Err(refusal),
    }
}

// Appends so many bytes from a place on.
fn read_more<D: Disk>(
    disk: &mut D,
    file: FileId,
    at: u64,
    count: usize,
    into: &mut Vec<u8>,
) -> Result<(), GateRefusal>
    requires file { file.0 < 8 }
    requires count { count ≤ 2000000 }
    ensures bytes { D.tells_content → OnOk result (into.new.items ≡ into.old.items ++ slice_range ((D.told disk.old).content file.0) at (at + count)) }
    ensures refused { OnErr result (into.new.items ≡ into.old.items) }
    ensures damaged { D.tells_content → IfErr result (λ refusal. IfDamaged refusal (λ place. length ((D.told disk.old).content file.0) < at + count)) }
    ensures content { SameFiles (D.told disk.old).content (D.told disk.new).content }
    ensures stops { EachStop (D.told disk.old) (D.told disk.new) SameFiles }
    ensures unsynced { StillLeaves (D.told disk.old) (D.told disk.new) }
    ensures calls { OnOk result (MakesCalls 1 (D.told disk.old) (D.told disk.new)) }
    ensures cause { HasCause (D.told disk.old).faults (D.told disk.new).faults (result ≡ Err GateRefusal.DiskFault) }
{
    let held = into.len();
    if into.resize(held + count, 0).is_err() {
        return Err(GateRefusal::Memory);
    }
    match disk.read(file, at, &mut into[held..]) {
        Ok(()) => Ok(()),
        Err(error) => {
            into.truncate(held);
            Err(refusal(error, at))
        }
    }
}

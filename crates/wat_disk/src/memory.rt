// A disk in memory, which keeps what it held at first and each write and sync since.
ghost use Rattle.std.specs.Prelude.{◌≡◌, ◌+◌, ◌<◌, ◌≤◌, ◌^◌, ◌↔◌, [], ◌∷◌, ◌++◌, ℕ, ◌==◌, ◌-◌, true, false, min, if◌then◌else◌, length, slice_range, Vec, vec_len, vec_capacity, All, Contains, IsTrue, IsOk, IfOk, OnOk, OnErr, IsErrOf, IsOkUnless};
ghost use Rattle.std.specs.declared.alloc.Global.{Global};
ghost use Rattle.wat_disk.specs.Bytes.{written, Torn};
ghost use Rattle.wat_disk.specs.Disk.{SameFiles, InFile, EachStop, IsSynced, StillLeaves, MakesCalls, Counts};
ghost use Rattle.wat_faults.specs.Faults.{counted};
ghost use Rattle.wat_disk.specs.Picks.{picked_after};
ghost use Rattle.wat_disk.specs.Memory.{bytes_at, bytes_needed, count_of, acts_until, told_by};
ghost use Rattle.wat_disk.specs.Kept.{IsRecord, IsRoomy};
ghost use Rattle.wat_disk.specs.LeftProofs.{reads_as_left};

use crate::bytes::overwrite;
use crate::replay::left_at;
use crate::{Disk, DiskError, FileId, Pick};
use std::alloc::{AllocError, Global};

/// What a call did to a file.
#[derive(Clone, Copy, Debug, PartialEq, Eq)]
pub enum Deed {
    /// It wrote so many bytes at a place.
    Write { at: u64, count: usize },
    /// It synced the file.
    Sync,
}

impl Deed {
    /// How many bytes it wrote.
    pub fn count(&self) -> usize
        ensures { result ≡ count_of self.now }
    {
        match self {
            Deed::Write { count, .. } => *count,
            Deed::Sync => 0,
        }
    }
}

/// A call that did its work on a disk in memory.
#[derive(Clone, Copy, Debug, PartialEq, Eq)]
pub struct Entry {
    /// The moment after the call.
    pub moment: u64,
    /// The number of its file.
    pub file: u8,
    pub deed: Deed,
}

/// A copy with room for so many bytes more.
pub fn copy_with_room(alloc: Global, held: &[u8], room: usize) -> Result<Vec<u8>, AllocError>
    ensures same { IfOk result (λ copy. copy.items ≡ held.now) }
    ensures room { IfOk result (λ copy. vec_len copy + room ≤ vec_capacity copy) }
{
    let mut copy = held.to_vec(alloc)?;
    copy.reserve(room)?;
    Ok(copy)
}

/// The bytes of a file; one that isn't there is empty.
pub fn bytes_of(files: &[Vec<u8>], i: usize) -> &[u8]
    ensures { result.now ≡ bytes_at files.now i }
{
    if i < files.len() {
        return files[i].as_slice();
    }
    &[]
}

/// Copies of the files, in order, and empty ones up to eight, each with room for so many bytes more.
pub fn eight_copies(
    alloc: Global,
    files: &[Vec<u8>],
    room: usize,
) -> Result<Vec<Vec<u8>>, AllocError>
    requires { length files.now ≤ 8 }
    ensures same { IfOk result (λ copies. SameFiles (bytes_at files.now) (bytes_at copies.items)) }
    ensures eight { IfOk result (λ copies. length copies.items ≡ 8) }
    ensures room { IfOk result (λ copies. All (λ (held : Vec ℕ Global). vec_len held + room ≤ vec_capacity held) copies.items) }
{
    let mut copies = Vec::new(alloc);
    for i in 0..8 {
        copies.push(copy_with_room(alloc, bytes_of(files, i), room)?)?;
    }
    Ok(copies)
}

// Writes to a file, in the room that there is.
fn write_file(files: &mut Vec<Vec<u8>>, file: u8, at: usize, bytes: &[u8], spare: usize)
    requires file { file < length files.old.items }
    requires room { All (λ (held : Vec ℕ Global). vec_len held + spare ≤ vec_capacity held) files.old.items }
    requires fits { bytes_needed (length (bytes_at files.old.items file)) at (length bytes.now) ≤ spare }
    requires range { at + length bytes.now < 2 ^ 64 }
    ensures files { (other : ℕ) → bytes_at files.new.items other ≡ (if other == file then written (bytes_at files.old.items other) at bytes.now else bytes_at files.old.items other) }
    ensures as_many { length files.new.items ≡ length files.old.items }
    ensures room { All (λ (held : Vec ℕ Global). vec_len held + (spare - bytes_needed (length (bytes_at files.old.items file)) at (length bytes.now)) ≤ vec_capacity held) files.new.items }
{
    overwrite(&mut files[file as usize], at, bytes);
}

/// Eight files in memory. Each call that fails does nothing but to be counted, as a call and as one fault.
///
/// A call fails where its moment is among those that are to fail, and at the last moment; a write or a sync also where the
/// room that was made for it is used up. None of them needs memory, and none answers `Memory`.
#[derive(Drop)]
pub struct MemoryDisk {
    base: Vec<Vec<u8>>,
    files: Vec<Vec<u8>>,
    entries: Vec<Entry>,
    kept: Vec<u8>,
    fails: Vec<u64>,
    room: usize,
    spare_calls: usize,
    spare_bytes: usize,
    moment: u64,
    faults: u64,
    ghost replayable: { IsRecord base.items files.items entries.items kept.items moment },
    ghost roomy: { IsRoomy files.items entries kept spare_calls spare_bytes },
}

impl MemoryDisk {
    ghost use Rattle.wat_disk.specs.MemoryDisk.{told_of, left_by, calls_of, fails_of, room_of, spare_calls, spare_bytes, CanCall, CanWrite, CanSync, Takes};

    /// Eight files with these contents, all of them synced; those that aren't given are empty. A call at a moment in
    /// `fails` fails. There is room for `room` writes and syncs, and for `room` bytes written, which need no memory;
    /// zeros that fill a gap before a write count as written. Past it writes and syncs fail.
    pub fn new(
        alloc: Global,
        files: Vec<Vec<u8>>,
        room: usize,
        fails: Vec<u64>,
    ) -> Result<MemoryDisk, AllocError>
        requires { length files.items ≤ 8 }
        ensures content { IfOk result (λ disk. SameFiles (bytes_at files.items) (told_of disk).content) }
        ensures synced { IfOk result (λ disk. (file : ℕ) → IsSynced (told_of disk) file) }
        ensures start { IfOk result (λ disk. ((told_of disk).moment ≡ 0) × ((told_of disk).faults ≡ 0)) }
        ensures no_calls { IfOk result (λ disk. calls_of disk ≡ []) }
        ensures fails { IfOk result (λ disk. fails_of disk ≡ fails.items) }
        ensures room { IfOk result (λ disk. (room_of disk ≡ room) × (spare_calls disk ≡ room) × (spare_bytes disk ≡ room)) }
    {
        let base = eight_copies(alloc, &files, 0)?;
        let now = eight_copies(alloc, &files, room)?;
        Ok(MemoryDisk {
            base,
            files: now,
            entries: Vec::with_capacity(alloc, room)?,
            kept: Vec::with_capacity(alloc, room)?,
            fails,
            room,
            spare_calls: room,
            spare_bytes: room,
            moment: 0,
            faults: 0,
        })
    }

    /// The writes and syncs that did their work, in order.
    pub fn calls(&self) -> &[Entry]
        ensures { result.now ≡ calls_of self.now }
    {
        self.entries.as_slice()
    }

    /// A disk that a stop at this moment may leave of this one, by the pick, with the same room and no failing calls.
    pub fn after_stop(
        &self,
        alloc: Global,
        moment: u64,
        pick: Pick,
    ) -> Result<MemoryDisk, AllocError>
        requires { moment ≤ (told_of self.now).moment }
        ensures left { IfOk result (λ disk. (told_of self.now).left_at moment (told_of disk).content) }
        ensures picked { IfOk result (λ disk. SameFiles (left_by pick moment self.now) (told_of disk).content) }
        ensures synced { IfOk result (λ disk. (file : ℕ) → IsSynced (told_of disk) file) }
        ensures start { IfOk result (λ disk. ((told_of disk).moment ≡ 0) × ((told_of disk).faults ≡ 0)) }
        ensures no_calls { IfOk result (λ disk. calls_of disk ≡ []) }
        ensures no_fails { IfOk result (λ disk. fails_of disk ≡ []) }
        ensures room { IfOk result (λ disk. (room_of disk ≡ room_of self.now) × (spare_calls disk ≡ room_of self.now) × (spare_bytes disk ≡ room_of self.now)) }
    {
        let files = left_at(alloc, &self.base, &self.entries, &self.kept, moment, pick)?;
        MemoryDisk::new(alloc, files, self.room, Vec::new(alloc))
    }

    fn bytes(&self, file: FileId) -> &[u8]
        requires { file.0 < 8 }
        ensures { result.now ≡ (told_of self.now).content file.0 }
    {
        self.files[file.0 as usize].as_slice()
    }

    fn can_call(&self) -> bool
        ensures { IsTrue result ↔ CanCall self.now }
    {
        if self.fails.contains(&self.moment) {
            return false;
        }
        self.moment < u64::MAX
    }

    fn can_sync(&self) -> bool
        ensures { IsTrue result ↔ CanSync self.now }
    {
        self.can_call() && self.spare_calls > 0
    }

    fn needed(&self, file: FileId, at: u64, count: usize) -> usize
        requires file { file.0 < 8 }
        requires range { at + count < 2 ^ 64 }
        ensures { result ≡ bytes_needed (length ((told_of self.now).content file.0)) at count }
    {
        (at as usize).saturating_sub(self.bytes(file).len()) + count
    }

    fn can_write(&self, file: FileId, at: u64, count: usize) -> bool
        requires { file.0 < 8 }
        ensures { IsTrue result ↔ CanWrite self.now file.0 at count }
    {
        self.can_sync()
            && at <= u64::MAX - count as u64
            && self.needed(file, at, count) <= self.spare_bytes
    }

    // A call that does nothing.
    fn count(&mut self)
        requires { (told_of self.old).moment + 1 < 2 ^ 64 }
        ensures moment { (told_of self.new).moment ≡ (told_of self.old).moment + 1 }
        ensures faults { (told_of self.new).faults ≡ (told_of self.old).faults }
        ensures content { SameFiles (told_of self.old).content (told_of self.new).content }
        ensures stops { EachStop (told_of self.old) (told_of self.new) SameFiles }
        ensures unsynced { StillLeaves (told_of self.old) (told_of self.new) }
        ensures took { Takes 0 0 self.old self.new }
        ensures calls { calls_of self.new ≡ calls_of self.old }
    {
        self.moment += 1;
    }

    // A call that fails, and does nothing.
    fn fail(&mut self) -> DiskError
        ensures failed { result ≡ DiskError.Failed }
        ensures moment { MakesCalls 1 (told_of self.old) (told_of self.new) }
        ensures faults { (told_of self.new).faults ≡ counted (told_of self.old).faults }
        ensures never_falls { (told_of self.old).faults ≤ (told_of self.new).faults }
        ensures content { SameFiles (told_of self.old).content (told_of self.new).content }
        ensures stops { EachStop (told_of self.old) (told_of self.new) SameFiles }
        ensures unsynced { StillLeaves (told_of self.old) (told_of self.new) }
        ensures took { Takes 0 0 self.old self.new }
        ensures calls { calls_of self.new ≡ calls_of self.old }
    {
        self.faults = self.faults.saturating_add(1);
        if self.moment < u64::MAX {
            self.count();
        }
        DiskError::Failed
    }
}

impl Disk for MemoryDisk {
    ghost use Rattle.wat_disk.specs.MemoryDisk.{told_of, calls_of, CanCall, CanWrite, CanSync, Takes};

    ghost tells_content = { Unit {0} };

    ghost told = { λ disk. told_by disk.base.items disk.files.items disk.entries.items disk.kept.items disk.moment disk.faults };

    ghost reads_as_left = { λ disk tells. reads_as_left disk.base.items disk.files.items disk.entries.items disk.kept.items disk.moment disk.replayable };

    /// As of the trait, and it tells the length exactly where the call is not to fail, and else is `Failed`.
    fn length(&mut self, file: FileId) -> Result<u64, DiskError>
        requires { file.0 < 8 }
        ensures length { IfOk result (λ n. n ≡ length ((told_of self.old).content file.0)) }
        ensures content { SameFiles (told_of self.old).content (told_of self.new).content }
        ensures stops { EachStop (told_of self.old) (told_of self.new) SameFiles }
        ensures unsynced { StillLeaves (told_of self.old) (told_of self.new) }
        ensures counts { Counts (told_of self.old) (told_of self.new) result }
        ensures not_past { IsErrOf result DiskError.Past → ⊥ }
        ensures answers { IsOk result ↔ CanCall self.old }
        ensures fails { ¬ CanCall self.old → IsErrOf result DiskError.Failed }
        ensures took { Takes 0 0 self.old self.new }
        ensures calls { calls_of self.new ≡ calls_of self.old }
    {
        if !self.can_call() {
            return Err(self.fail());
        }
        self.count();
        Ok(self.bytes(file).len() as u64)
    }

    /// As of the trait, and it reads exactly where the call is not to fail and the bytes are there. A call that is to fail
    /// is `Failed`, wherever it reads, and one that is not is `Past` where the bytes are not there. After a refusal `into`
    /// is as before.
    fn read(&mut self, file: FileId, at: u64, into: &mut [u8]) -> Result<(), DiskError>
        requires { file.0 < 8 }
        ensures read { OnOk result (into.new ≡ slice_range ((told_of self.old).content file.0) at (at + length into.old)) }
        ensures within { OnOk result (at + length into.old ≤ length ((told_of self.old).content file.0)) }
        ensures past { IsErrOf result DiskError.Past → length ((told_of self.old).content file.0) < at + length into.old }
        ensures past_unread { IsErrOf result DiskError.Past → into.new ≡ into.old }
        ensures content { SameFiles (told_of self.old).content (told_of self.new).content }
        ensures stops { EachStop (told_of self.old) (told_of self.new) SameFiles }
        ensures unsynced { StillLeaves (told_of self.old) (told_of self.new) }
        ensures counts { Counts (told_of self.old) (told_of self.new) result }
        ensures answers { IsOk result ↔ (CanCall self.old × (at + length into.old ≤ length ((told_of self.old).content file.0))) }
        ensures fails { ¬ CanCall self.old → IsErrOf result DiskError.Failed }
        ensures goes_past { CanCall self.old → length ((told_of self.old).content file.0) < at + length into.old → IsErrOf result DiskError.Past }
        ensures unread { OnErr result (into.new ≡ into.old) }
        ensures took { Takes 0 0 self.old self.new }
        ensures calls { calls_of self.new ≡ calls_of self.old }
    {
        if !self.can_call() {
            return Err(self.fail());
        }
        self.count();
        let held = self.bytes(file);
        let at = at as usize;
        if at > held.len() || into.len() > held.len() - at {
            return Err(DiskError::Past);
        }
        into.copy_from_slice(&held[at..at + into.len()]);
        Ok(())
    }

    /// As of the trait, and it writes exactly where the call is not to fail, the range ends below 2^64 and there is room.
    /// Else it is `Failed`, and changes no file.
    fn write_at(&mut self, file: FileId, at: u64, bytes: &[u8]) -> Result<(), DiskError>
        requires { file.0 < 8 }
        ensures written { OnOk result ((told_of self.new).content file.0 ≡ written ((told_of self.old).content file.0) at bytes.now) }
        ensures content { InFile file.0 (Torn at (length bytes.now)) (told_of self.old).content (told_of self.new).content }
        ensures stops { EachStop (told_of self.old) (told_of self.new) (InFile file.0 (Torn at (length bytes.now))) }
        ensures counts { Counts (told_of self.old) (told_of self.new) result }
        ensures failed_alone { IsOkUnless result DiskError.Failed }
        ensures answers { IsOk result ↔ CanWrite self.old file.0 at (length bytes.now) }
        ensures took { OnOk result (Takes 1 (bytes_needed (length ((told_of self.old).content file.0)) at (length bytes.now)) self.old self.new) }
        ensures noted { OnOk result (calls_of self.new ≡ calls_of self.old ++ record { moment = (told_of self.new).moment; file = file.0; deed = Deed.Write at (length bytes.now) } ∷ []) }
        ensures unchanged { OnErr result (Takes 0 0 self.old self.new × (calls_of self.new ≡ calls_of self.old) × SameFiles (told_of self.old).content (told_of self.new).content × EachStop (told_of self.old) (told_of self.new) SameFiles) }
    {
        let count = bytes.len();
        if !self.can_write(file, at, count) {
            return Err(self.fail());
        }
        let needed = self.needed(file, at, count);
        let deed = Deed::Write { at, count };
        let moment = self.moment + 1;
        write_file(
            &mut self.files,
            file.0,
            at as usize,
            bytes,
            self.spare_bytes,
        );
        self.kept.extend_from_slice(bytes).unwrap();
        self.entries
            .push(Entry {
                moment,
                file: file.0,
                deed,
            })
            .unwrap();
        self.moment = moment;
        self.spare_calls -= 1;
        self.spare_bytes -= needed;
        Ok(())
    }

    /// As of the trait, and it syncs exactly where the call is not to fail and there is room.
    fn sync(&mut self, file: FileId) -> Result<(), DiskError>
        requires { file.0 < 8 }
        ensures synced { OnOk result (IsSynced (told_of self.new) file.0) }
        ensures content { SameFiles (told_of self.old).content (told_of self.new).content }
        ensures stops { EachStop (told_of self.old) (told_of self.new) SameFiles }
        ensures counts { Counts (told_of self.old) (told_of self.new) result }
        ensures failed_alone { IsOkUnless result DiskError.Failed }
        ensures answers { IsOk result ↔ CanSync self.old }
        ensures took { OnOk result (Takes 1 0 self.old self.new) }
        ensures noted { OnOk result (calls_of self.new ≡ calls_of self.old ++ record { moment = (told_of self.new).moment; file = file.0; deed = Deed.Sync } ∷ []) }
        ensures unchanged { OnErr result (Takes 0 0 self.old self.new × (calls_of self.new ≡ calls_of self.old)) }
    {
        if !self.can_sync() {
            return Err(self.fail());
        }
        let deed = Deed::Sync;
        let moment = self.moment + 1;
        self.entries
            .push(Entry {
                moment,
                file: file.0,
                deed,
            })
            .unwrap();
        self.moment = moment;
        self.spare_calls -= 1;
        Ok(())
    }

    fn moment(&self) -> u64 {
        self.moment
    }
}

// A disk of eight files, by what it tells: what a read gives, what a stop may leave, its moment and its faults.
ghost use Rattle.std.specs.Prelude.{◌≡◌, ◌+◌, ◌<◌, ◌≤◌, ◌^◌, ℕ, length, slice_range, IfOk, OnOk, IsErrOf, IsOkUnless};
ghost use Rattle.wat_disk.specs.Bytes.{written, Torn};
ghost use Rattle.wat_disk.specs.Disk.{Told, IsSynced, InFile, SameFiles, EachStop, StillLeaves, Counts};

/// A file of a disk, by its number, which each call needs to be below 8.
#[derive(Clone, Copy, Debug, PartialEq, Eq)]
pub struct FileId(pub u8);

/// Why a call on a disk gave up.
#[derive(Clone, Copy, Debug, PartialEq, Eq)]
pub enum DiskError {
    /// The disk has failed, and counts one fault. What the call was to do may be done in part.
    Failed,
    /// A read goes past the end of the file. It is no fault.
    Past,
    /// A length or a read wanted memory and got none. `write_at` and `sync` never answer it.
    Memory,
}

/// A call on the disk answered `Failed`.
#[derive(Clone, Copy, Debug, PartialEq, Eq)]
pub struct DiskFault;

/// Eight files of bytes that outlast the program.
///
/// Until a file is synced, a stop may leave any bytes in each range that was written since its last sync and past the
/// end that it had then; other bytes stay. After a sync that succeeds it leaves what a read gives. A stop within a call
/// counts as one before the call or after it. Each call but `moment` raises the moment by one; at the last moment,
/// 2^64 - 1, it fails and does nothing.
pub trait Disk {
    /// This disk tells what its files hold. Where it doesn't, no clause says what a read gives.
    ghost tells_content: { Type 0 };

    /// What a read gives, what a stop at each moment may leave, the moment, and the count of faults.
    ghost told: { Self → Told };

    /// The length of a file in bytes; a file that was never written is empty.
    fn length(&mut self, file: FileId) -> Result<u64, DiskError>
        requires { file.0 < 8 }
        ensures length { tells_content → IfOk result (λ n. n ≡ length ((told self.old).content file.0)) }
        ensures content { SameFiles (told self.old).content (told self.new).content }
        ensures stops { EachStop (told self.old) (told self.new) SameFiles }
        ensures unsynced { StillLeaves (told self.old) (told self.new) }
        ensures counts { Counts (told self.old) (told self.new) result }
        ensures not_past { IsErrOf result DiskError.Past → ⊥ };

    /// Fills `into` with the bytes that begin at `at`. Where it neither fails nor wants memory, it answers `Past` exactly
    /// where they go past the end, also where they would end above 2^64 - 1. After `Past` `into` is as before; what it
    /// holds after another refusal is left open.
    fn read(&mut self, file: FileId, at: u64, into: &mut [u8]) -> Result<(), DiskError>
        requires { file.0 < 8 }
        ensures read { tells_content → OnOk result (into.new ≡ slice_range ((told self.old).content file.0) at (at + length into.old)) }
        ensures within { tells_content → OnOk result (at + length into.old ≤ length ((told self.old).content file.0)) }
        ensures past { tells_content → IsErrOf result DiskError.Past → length ((told self.old).content file.0) < at + length into.old }
        ensures past_unread { IsErrOf result DiskError.Past → into.new ≡ into.old }
        ensures content { SameFiles (told self.old).content (told self.new).content }
        ensures stops { EachStop (told self.old) (told self.new) SameFiles }
        ensures unsynced { StillLeaves (told self.old) (told self.new) }
        ensures counts { Counts (told self.old) (told self.new) result };

    /// Writes over what is there, and past the end, where zeros fill a gap before `at`. Until a sync a stop may leave
    /// any bytes in the range and past the old end. The range ends below 2^64: so no caller provokes a fault by it, and
    /// a call that has failed met a fault of the disk.
    fn write_at(&mut self, file: FileId, at: u64, bytes: &[u8]) -> Result<(), DiskError>
        requires file { file.0 < 8 }
        requires in_range { at + length bytes.now < 2 ^ 64 }
        ensures written { tells_content → OnOk result ((told self.new).content file.0 ≡ written ((told self.old).content file.0) at bytes.now) }
        ensures content { InFile file.0 (Torn at (length bytes.now)) (told self.old).content (told self.new).content }
        ensures stops { EachStop (told self.old) (told self.new) (InFile file.0 (Torn at (length bytes.now))) }
        ensures counts { Counts (told self.old) (told self.new) result }
        ensures failed_alone { IsOkUnless result DiskError.Failed };

    /// Puts a file on the medium: after it, a stop leaves of this file what a read gives.
    fn sync(&mut self, file: FileId) -> Result<(), DiskError>
        requires { file.0 < 8 }
        ensures synced { OnOk result (IsSynced (told self.new) file.0) }
        ensures content { SameFiles (told self.old).content (told self.new).content }
        ensures stops { EachStop (told self.old) (told self.new) SameFiles }
        ensures counts { Counts (told self.old) (told self.new) result }
        ensures failed_alone { IsOkUnless result DiskError.Failed };

    /// How many calls of those four were made.
    fn moment(&self) -> u64
        ensures { result ≡ (told self.now).moment };

    /// A stop may leave the disk as it reads.
    ghost reads_as_left: { (disk : Self) → tells_content → (told disk).left_at (told disk).moment (told disk).content };
}

// A write that is on the disk before anything else happens.
ghost use Rattle.std.specs.Prelude.{◌≡◌, ◌+◌, ◌<◌, ◌^◌, length, OnOk, IsErr};
ghost use Rattle.wat_disk.specs.Bytes.{written, Torn};
ghost use Rattle.wat_disk.specs.Disk.{IsSynced, InFile, SameOthers, EachStop, MakesCalls, MakesAtMost};
ghost use Rattle.wat_faults.specs.Faults.{HasCause};

use crate::{Disk, DiskFault, FileId};

/// Writes, and syncs the file: two calls. After `Ok` the bytes are there and a stop leaves them; after a fault the write
/// may be done in part. It fails only where the disk's count of faults rose in this call.
pub fn write_synced<D: Disk>(
    disk: &mut D,
    file: FileId,
    at: u64,
    bytes: &[u8],
) -> Result<(), DiskFault>
    requires file { file.0 < 8 }
    requires in_range { at + length bytes.now < 2 ^ 64 }
    ensures written { D.tells_content → OnOk result ((D.told disk.new).content file.0 ≡ written ((D.told disk.old).content file.0) at bytes.now) }
    ensures others { SameOthers file.0 (D.told disk.old).content (D.told disk.new).content }
    ensures synced { OnOk result (IsSynced (D.told disk.new) file.0) }
    ensures stops { EachStop (D.told disk.old) (D.told disk.new) (InFile file.0 (Torn at (length bytes.now))) }
    ensures calls { OnOk result (MakesCalls 2 (D.told disk.old) (D.told disk.new)) }
    ensures calls_at_most { MakesAtMost 2 (D.told disk.old) (D.told disk.new) }
    ensures cause { HasCause (D.told disk.old).faults (D.told disk.new).faults (IsErr result) }
{
    disk.write_at(file, at, bytes).map_err(|_| DiskFault)?;
    disk.sync(file).map_err(|_| DiskFault)?;
    Ok(())
}

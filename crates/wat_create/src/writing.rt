// The three files of a new database, in the order in which they are written.
ghost use Rattle.std.specs.Prelude.{◌≡◌, length, OnOk, IsErr};
ghost use Rattle.wat_disk.specs.Disk.{EachStop, IsSynced, MakesAtMost, MakesCalls};
ghost use Rattle.wat_faults.specs.Faults.{HasCause};
ghost use Rattle.wat_create.specs.Made.{AreEmpty, AreNew, AreSynced, HasContent, KeepsBefore, KeepsOthers, MakesEither, main_bytes};

use wat_disk::{Disk, DiskFault, FileId, write_synced};

/// The file of the pages.
pub(crate) const MAIN: FileId = FileId(0);

/// The file of the images of a checkpoint.
pub(crate) const BEFORE: FileId = FileId(1);

/// The file of the log.
pub(crate) const LOG: FileId = FileId(2);

// A log without frames: a closed gate.
const EMPTY_LOG: [u8; 1] = [0];

// Writes main and then the log, each of which is on the disk before anything else happens. The before file is left alone.
fn write_content<D: Disk>(disk: &mut D, main: &[u8]) -> Result<(), DiskFault>
    requires { length main.now ≡ 8192 }
    ensures content { D.tells_content → AreEmpty (D.told disk.old).content → OnOk result (HasContent main.now (D.told disk.new).content) }
    ensures main { OnOk result (IsSynced (D.told disk.new) 0) }
    ensures log { OnOk result (IsSynced (D.told disk.new) 2) }
    ensures kept { KeepsBefore (D.told disk.old).content (D.told disk.new).content }
    ensures stops { EachStop (D.told disk.old) (D.told disk.new) KeepsBefore }
    ensures calls { OnOk result (MakesCalls 4 (D.told disk.old) (D.told disk.new)) }
    ensures calls_at_most { MakesAtMost 4 (D.told disk.old) (D.told disk.new) }
    ensures cause { HasCause (D.told disk.old).faults (D.told disk.new).faults (IsErr result) }
{
    write_synced(disk, MAIN, 0, main)?;
    write_synced(disk, LOG, 0, &EMPTY_LOG)?;
    Ok(())
}

// Writes the three files, none of which has a byte: the gate of the before file last. Without this gate no database stands.
pub(crate) fn write_files<D: Disk>(disk: &mut D, main: &[u8], limit: u32) -> Result<(), DiskFault>
    requires main { main.now ≡ main_bytes limit }
    requires empty { D.tells_content → AreEmpty (D.told disk.old).content }
    ensures made { D.tells_content → OnOk result (AreNew limit (D.told disk.new).content) }
    ensures synced { OnOk result (AreSynced (D.told disk.new)) }
    ensures others { KeepsOthers (D.told disk.old).content (D.told disk.new).content }
    ensures other_stops { EachStop (D.told disk.old) (D.told disk.new) KeepsOthers }
    ensures stops { D.tells_content → IsSynced (D.told disk.old) 1 → EachStop (D.told disk.old) (D.told disk.new) (MakesEither limit) }
    ensures calls { OnOk result (MakesCalls 6 (D.told disk.old) (D.told disk.new)) }
    ensures calls_at_most { MakesAtMost 6 (D.told disk.old) (D.told disk.new) }
    ensures cause { HasCause (D.told disk.old).faults (D.told disk.new).faults (IsErr result) }
{
    write_content(disk, main)?;
    write_synced(disk, BEFORE, 0, &EMPTY_LOG)?;
    Ok(())
}

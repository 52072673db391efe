ghost use Rattle.std.specs.Prelude.{◌≡◌, ◌≢◌, ◌<◌, [], OnOk, OnErr};
ghost use Rattle.wat_disk.specs.Disk.{EachLeft, EachStop, IsSynced, MakesAtMost, MakesCalls, SameFiles};
ghost use Rattle.wat_faults.specs.Faults.{HasCause, Rose};
ghost use Rattle.wat_schema.specs.Tables.{no_tables};
ghost use Rattle.wat_replay.specs.State.{empty_state};
ghost use Rattle.wat_keeping.specs.Durable.{IsDatabase};
ghost use Rattle.wat_keeping.specs.Kept.{IsKept};
ghost use Rattle.wat_create.specs.Made.{AreNew, AreSynced, KeepsOthers, LeavesOrMakes};
ghost use Rattle.wat_create.specs.Refusal.{MayCreate, MayFindEmpty};

use crate::bytes::main_of;
use crate::writing::{BEFORE, LOG, MAIN, write_files};
use std::alloc::Global;
use wat_disk::{Disk, DiskError, FileId};

/// Why no database was made.
#[derive(Clone, Copy, Debug, PartialEq, Eq)]
pub enum CreateRefusal {
    /// Of the three files this one is the least that isn't empty.
    Exists { file: FileId },
    /// A call on the disk has failed.
    DiskFault,
    /// No memory was left.
    Memory,
}

// Why the length of a file was not told.
fn refusal_of(error: DiskError) -> CreateRefusal
    ensures failed { error ≡ DiskError.Failed → result ≡ CreateRefusal.DiskFault }
    ensures memory { error ≡ DiskError.Memory → result ≡ CreateRefusal.Memory }
    ensures past { error ≡ DiskError.Past → result ≡ CreateRefusal.DiskFault }
{
    match error {
        DiskError::Failed | DiskError::Past => CreateRefusal::DiskFault,
        DiskError::Memory => CreateRefusal::Memory,
    }
}

// Finds a file without a byte.
fn find_empty<D: Disk>(disk: &mut D, file: FileId) -> Result<(), CreateRefusal>
    requires { file.0 < 8 }
    ensures answer { MayFindEmpty D.tells_content ((D.told disk.old).content file.0) file (Rose (D.told disk.old).faults (D.told disk.new).faults) result }
    ensures content { SameFiles (D.told disk.old).content (D.told disk.new).content }
    ensures stops { EachStop (D.told disk.old) (D.told disk.new) SameFiles }
    ensures calls { MakesCalls 1 (D.told disk.old) (D.told disk.new) }
    ensures calls_at_most { MakesAtMost 1 (D.told disk.old) (D.told disk.new) }
    ensures cause { HasCause (D.told disk.old).faults (D.told disk.new).faults (result ≡ Err CreateRefusal.DiskFault) }
{
    match disk.length(file) {
        Ok(0) => Ok(()),
        Ok(_) => Err(CreateRefusal::Exists { file }),
        Err(error) => Err(refusal_of(error)),
    }
}

// Finds all three files without a byte, or tells the least that has one.
fn find_none<D: Disk>(disk: &mut D) -> Result<(), CreateRefusal>
    ensures answer { MayCreate D.tells_content (D.told disk.old).content (Rose (D.told disk.old).faults (D.told disk.new).faults) result }
    ensures content { SameFiles (D.told disk.old).content (D.told disk.new).content }
    ensures stops { EachStop (D.told disk.old) (D.told disk.new) SameFiles }
    ensures calls { OnOk result (MakesCalls 3 (D.told disk.old) (D.told disk.new)) }
    ensures calls_at_most { MakesAtMost 3 (D.told disk.old) (D.told disk.new) }
    ensures cause { HasCause (D.told disk.old).faults (D.told disk.new).faults (result ≡ Err CreateRefusal.DiskFault) }
{
    find_empty(disk, MAIN)?;
    find_empty(disk, BEFORE)?;
    find_empty(disk, LOG)?;
    Ok(())
}

/// Makes a database without tables, of at most `limit` pages, in the first three files, of which none may have a byte.
///
/// Main and the log are written first, and then the gate of the before file; each is synced before the next is written.
/// Until that gate stands, opening finds no database, or a before file that is broken at its start. `Exists` tells the least
/// file that isn't empty, and then nothing is written. After a disk fault the files may be made in part.
pub fn create<D: Disk>(alloc: Global, disk: &mut D, limit: u32) -> Result<(), CreateRefusal>
    // The three files were empty, or the least that was not is told, but for a disk fault and want of memory.
    ensures answer { MayCreate D.tells_content (D.told disk.old).content (Rose (D.told disk.old).faults (D.told disk.new).faults) result }
    ensures made { D.tells_content → OnOk result (AreNew limit (D.told disk.new).content) }
    ensures synced { OnOk result (AreSynced (D.told disk.new)) }
    ensures others { KeepsOthers (D.told disk.old).content (D.told disk.new).content }
    ensures unchanged { result ≢ Err CreateRefusal.DiskFault → OnErr result (SameFiles (D.told disk.old).content (D.told disk.new).content) }

    // Once the database is made, it is kept: whatever a stop leaves is a database of this page limit and of no tables.
    ensures kept { D.tells_content → OnOk result (IsKept limit 2 (D.told disk.new) [] empty_state no_tables) }
    ensures database { D.tells_content → OnOk result (EachLeft (D.told disk.new) (D.told disk.new).moment (D.told disk.new).moment (IsDatabase limit no_tables)) }

    // A stop at any moment of the call leaves all files as they were, or no database yet, or the new one.
    ensures stops { D.tells_content → IsSynced (D.told disk.old) 1 → EachStop (D.told disk.old) (D.told disk.new) (LeavesOrMakes limit) }
    ensures other_stops { EachStop (D.told disk.old) (D.told disk.new) KeepsOthers }
    ensures unchanged_stops { result ≢ Err CreateRefusal.DiskFault → OnErr result (EachStop (D.told disk.old) (D.told disk.new) SameFiles) }

    // They are three lengths, and a write and a sync of each file.
    ensures calls { OnOk result (MakesCalls 9 (D.told disk.old) (D.told disk.new)) }
    ensures calls_at_most { MakesAtMost 9 (D.told disk.old) (D.told disk.new) }
    ensures cause { HasCause (D.told disk.old).faults (D.told disk.new).faults (result ≡ Err CreateRefusal.DiskFault) }
{
    find_none(disk)?;
    let Ok(main) = main_of(alloc, limit) else {
        return Err(CreateRefusal::Memory);
    };
    match write_files(disk, main.as_slice(), limit) {
        Ok(()) => Ok(()),
        Err(_) => Err(CreateRefusal::DiskFault),
    }
}

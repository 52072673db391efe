ghost use Rattle.std.specs.Prelude.{◌≡◌, ◌≢◌, [], ◌∷◌, OnOk, OnErr};
ghost use Rattle.wat_disk.specs.Bytes.{Torn};
ghost use Rattle.wat_disk.specs.Disk.{EachLeft, EachStop, InFile, MakesAtMost, MakesCalls, SameFiles, SameOthers};
ghost use Rattle.wat_faults.specs.Faults.{HasCause, Rose};
ghost use Rattle.wat_schema.specs.Tables.{no_tables};
ghost use Rattle.wat_commit_log.specs.Logged.{log_file, Restarts};
ghost use Rattle.wat_commit_log.specs.Making.{MayMake};

use crate::LOG;
use wat_disk::{Disk, DiskError, write_synced};

/// Why no database was made.
#[derive(Clone, Copy, Debug, PartialEq, Eq)]
pub enum InitRefusal {
    /// The log is not empty.
    Exists,
    /// A call on the disk has failed.
    DiskFault,
    Memory,
}

/// Why the length of the log was not told.
fn refusal_of(error: DiskError) -> InitRefusal
    ensures fault { result ≡ InitRefusal.DiskFault → error ≢ DiskError.Memory }
    ensures failed { error ≡ DiskError.Failed → result ≡ InitRefusal.DiskFault }
    ensures other { result ≢ InitRefusal.Exists }
{
    match error {
        DiskError::Failed | DiskError::Past => InitRefusal::DiskFault,
        DiskError::Memory => InitRefusal::Memory,
    }
}

/// Makes a database: writes one closed gate, the log without frames, and syncs it.
///
/// A log that is not empty is left alone. After a disk fault the gate may be written in part.
pub fn init<D: Disk>(disk: &mut D) -> Result<(), InitRefusal>
    // The log was empty, or is refused as one that is there exactly where it was not, but for a disk fault and want of memory.
    ensures answer { MayMake D.tells_content ((D.told disk.old).content log_file) (Rose (D.told disk.old).faults (D.told disk.new).faults) result }
    ensures made { D.tells_content → OnOk result ((D.told disk.new).content log_file ≡ 0 ∷ []) }
    ensures others { SameOthers log_file (D.told disk.old).content (D.told disk.new).content }
    ensures unchanged { result ≢ Err InitRefusal.DiskFault → OnErr result (SameFiles (D.told disk.old).content (D.told disk.new).content) }

    // Once the database is made, whatever a stop leaves restarts without tables.
    ensures kept { D.tells_content → OnOk result (EachLeft (D.told disk.new) (D.told disk.new).moment (D.told disk.new).moment (λ image. Restarts (image log_file) no_tables)) }
    // A stop at any moment of the call leaves nothing else changed than the log's first byte, and a refusal that is no disk fault nothing.
    ensures stops { EachStop (D.told disk.old) (D.told disk.new) (InFile log_file (Torn 0 1)) }
    ensures unchanged_stops { result ≢ Err InitRefusal.DiskFault → OnErr result (EachStop (D.told disk.old) (D.told disk.new) SameFiles) }
    // It is a length, a write and a sync.
    ensures calls { OnOk result (MakesCalls 3 (D.told disk.old) (D.told disk.new)) }
    ensures calls_at_most { MakesAtMost 3 (D.told disk.old) (D.told disk.new) }
    ensures cause { HasCause (D.told disk.old).faults (D.told disk.new).faults (result ≡ Err InitRefusal.DiskFault) }
{
    match disk.length(LOG) {
        Ok(0) => {}
        Ok(_) => return Err(InitRefusal::Exists),
        Err(error) => return Err(refusal_of(error)),
    }
    match write_synced(disk, LOG, 0, &[0]) {
        Ok(()) => Ok(()),
        Err(_) => Err(InitRefusal::DiskFault),
    }
}

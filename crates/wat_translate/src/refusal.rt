// Why a log is not read back.
ghost use Rattle.std.specs.Prelude.{◌≡◌, ◌≢◌};
ghost use Rattle.wat_translate.specs.Refusals.{IfNamed, refusal_from};

use wat_disk::{DiskError, FileId};
use wat_gate::GateRefusal;

/// Why a log was not read back.
#[derive(Clone, Copy, Debug, PartialEq, Eq)]
pub enum LogRefusal {
    /// All files of the database are empty.
    NoDatabase,
    /// At this place of the file the bytes are no log, or the records of the frame there don't apply.
    Damaged { file: FileId, at: u64 },
    /// A call on the disk has failed.
    DiskFault,
    Memory,
}

pub(crate) fn of_gate(refusal: GateRefusal, file: FileId) -> LogRefusal
    ensures { result ≡ refusal_from refusal file }
{
    match refusal {
        GateRefusal::DiskFault => LogRefusal::DiskFault,
        GateRefusal::Damaged { at } => LogRefusal::Damaged { file, at },
        GateRefusal::Memory => LogRefusal::Memory,
    }
}

pub(crate) fn of_length(error: DiskError) -> LogRefusal
    ensures fault { result ≡ LogRefusal.DiskFault → error ≢ DiskError.Memory }
    ensures failed { error ≡ DiskError.Failed → result ≡ LogRefusal.DiskFault }
    ensures other { IfNamed result ⊥ (λ file at. ⊥) }
{
    match error {
        DiskError::Failed | DiskError::Past => LogRefusal::DiskFault,
        DiskError::Memory => LogRefusal::Memory,
    }
}

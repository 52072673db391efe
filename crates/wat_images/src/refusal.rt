ghost use Rattle.wat_images.specs.declared.refusal.PageRefusal.TheVariants.{DiskFault, Memory};
ghost use Rattle.std.specs.Prelude.{◌≡◌};

use std::alloc::{AllocError, AllocFailed};
use wat_disk::FileId;

/// Why a call on pages gave up.
#[derive(Clone, Copy, Debug, PartialEq, Eq)]
pub enum PageRefusal {
    /// A call on the disk failed.
    DiskFault,
    /// What the call needs isn't formed, or isn't in the files, at this place in bytes from the file's start.
    Damaged { file: FileId, at: u64 },
    /// No page is free, and the count of pages has reached the limit.
    PageLimit { count: u32, limit: u32 },
    /// No memory was left, or the checkpoint log would end past the last place of a file.
    Memory,
}

impl From<wat_disk::DiskFault> for PageRefusal {
    ghost from_gives = { λ _ e. e ≡ DiskFault };

    fn from(_: wat_disk::DiskFault) -> Self {
        PageRefusal::DiskFault
    }
}

impl From<AllocError> for PageRefusal {
    ghost from_gives = { λ _ e. e ≡ Memory };

    fn from(_: AllocError) -> Self {
        PageRefusal::Memory
    }
}

impl<T: Drop> From<AllocFailed<T>> for PageRefusal {
    ghost from_gives = { λ _ e. e ≡ Memory };

    fn from(_: AllocFailed<T>) -> Self {
        PageRefusal::Memory
    }
}

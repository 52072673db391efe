// Why a database isn't opened.
ghost use Rattle.std.specs.Prelude.{◌≡◌};
ghost use Rattle.wat_opening.specs.Refusal.{open_why};

use wat_disk::FileId;
use wat_pages::PageRefusal;

/// Why a database isn't opened.
#[derive(Clone, Copy, Debug, PartialEq, Eq)]
pub enum OpenWhy {
    /// All three files are empty.
    NoDatabase,
    /// The files aren't those of a database: a walk over them fails first at this place of this file.
    Damaged { file: FileId, at: u64 },
    /// A page is needed, none is free, and no page more can be numbered.
    PageLimit { count: u32, limit: u32 },
    DiskFault,
    Memory,
}

/// Why a database isn't opened, with its disk.
pub struct OpenRefusal<D> {
    pub why: OpenWhy,
    pub disk: D,
}

/// A refusal of a database's pages or of its log, with the disk.
pub(crate) struct Refused<D> {
    pub(crate) why: PageRefusal,
    pub(crate) disk: D,
}

pub(crate) fn why_of(refusal: PageRefusal) -> OpenWhy
    ensures { result ≡ open_why refusal }
{
    match refusal {
        PageRefusal::DiskFault => OpenWhy::DiskFault,
        PageRefusal::Damaged { file, at } => OpenWhy::Damaged { file, at },
        PageRefusal::PageLimit { count, limit } => OpenWhy::PageLimit { count, limit },
        PageRefusal::Memory => OpenWhy::Memory,
    }
}

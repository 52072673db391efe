// The list of the free pages is read, page by page.
ghost use Rattle.std.specs.Prelude.{◌≡◌, ◌≢◌, ◌*◌, ◌<◌, ◌^◌, ◌++◌, ℕ, List, Some, length, nat_eq, OnOk, IfOk, IfErr, IfSome, IfNone};
ghost use Rattle.std.specs.List.{IsDistinct};
ghost use Rattle.wat_disk.specs.Disk.{EachStop};
ghost use Rattle.wat_faults.specs.Faults.{HasCause};
ghost use Rattle.wat_restore.specs.Restored.{Checkpoint, OnlyPages};
ghost use Rattle.wat_restore.specs.Safe.{IsSafe, Covers};
ghost use Rattle.wat_book.specs.Book.{IsFreePage, SameBook};
ghost use Rattle.wat_images.specs.Refusal.{IfDamaged, IfPageLimit};
ghost use Rattle.wat_pages.specs.Pages.{count_of, IsPagesOf, SameHead, book_of};
ghost use Rattle.wat_payload.specs.Reading.{IsSetOf};
ghost use Rattle.wat_files.specs.Chains.{IsFreeList, FreeBreaksAt};
ghost use Rattle.wat_free_list.specs.Whole.{whole_pages};

use std::alloc::Global;
use std::collections::BTreeSet;
use wat_disk::{Disk, FileId};
use wat_list::NoMemory;
use wat_pages::{PageRefusal, Pages};
use wat_slot::Page;

fn damaged_at(page: u32) -> PageRefusal
    ensures place { IfDamaged result (λ file at. (file ≡ 0) × (at ≡ 4096 * page)) }
    ensures limited { IfPageLimit result (λ count limit. ⊥) }
    ensures fault { result ≢ PageRefusal.DiskFault }
{
    PageRefusal::Damaged {
        file: FileId(0),
        at: 4096 * u64::from(page),
    }
}

/// The set of these pages.
pub fn page_set(alloc: Global, pages: &[u32]) -> Result<BTreeSet<u32>, NoMemory>
    ensures { IfOk result (λ set. IsSetOf set.keys pages.now) }
{
    let mut set = BTreeSet::new(alloc);
    for page in pages {
        set.insert(*page)?;
    }
    Ok(set)
}

/// The page that a free page tells, or 0; `None` where the bytes are none of a free page.
fn next_in(page: &[u8]) -> Option<u32>
    requires { length page.now ≡ 4096 }
    ensures some { IfSome result (IsFreePage (Some page.now)) }
    ensures none { IfNone result ((next : ℕ) → IsFreePage (Some page.now) next → ⊥) }
{
    if page[0] == 4 {
        Some(u32::from_be_bytes([page[4], page[5], page[6], page[7]]))
    } else {
        None
    }
}

/// The page that the free page at this number tells, or 0.
fn read_free<D: Disk>(
    alloc: Global,
    pages: &mut Pages,
    disk: &mut D,
    page: u32,
) -> Result<u32, PageRefusal>
    requires known { D.tells_content → IsPagesOf (D.told disk.old) pages.old }

    ensures free { D.tells_content → IfOk result (IsFreePage (whole_pages (book_of (D.told disk.old) pages.old) page)) }
    ensures damaged { D.tells_content → IfErr result (λ refusal. IfDamaged refusal (λ file at. (file ≡ 0) × (at ≡ 4096 * page) × ((next : ℕ) → IsFreePage (whole_pages (book_of (D.told disk.old) pages.old) page) next → ⊥))) }
    ensures limited { IfErr result (λ refusal. IfPageLimit refusal (λ count limit. ⊥)) }
    ensures same { SameHead pages.old pages.new }
    ensures pages { D.tells_content → OnOk result (SameBook (book_of (D.told disk.old) pages.old) (book_of (D.told disk.new) pages.new)) }
    ensures known { D.tells_content → OnOk result (IsPagesOf (D.told disk.new) pages.new) }
    ensures others { OnlyPages (D.told disk.old).content (D.told disk.new).content }
    ensures stops { D.tells_content → (saved : Checkpoint) → IsSafe saved (D.told disk.old) → EachStop (D.told disk.old) (D.told disk.new) (Covers saved) }
    ensures safe { D.tells_content → (saved : Checkpoint) → IsSafe saved (D.told disk.old) → OnOk result (IsSafe saved (D.told disk.new)) }
    ensures cause { HasCause (D.told disk.old).faults (D.told disk.new).faults (result ≡ Err PageRefusal.DiskFault) }
{
    if page >= pages.count() {
        return Err(damaged_at(page));
    }
    let mut bytes = Page::new(alloc)?;
    match pages.read_page(disk, page, &mut bytes) {
        Ok(()) => {}
        Err(refusal) => return Err(refusal),
    }
    match next_in(bytes.as_slice()) {
        Some(next) => Ok(next),
        None => Err(damaged_at(page)),
    }
}

/// Reads the list of free pages that begins at a page, or the empty one where that is 0.
///
/// `Damaged` tells the first page that breaks the rules, in bytes from the start of the main file: one that comes twice or
/// was met before, or one that is no free page below the count; a page that main has in part is none. `met` are the pages
/// that were met before, each once.
pub fn read_free_list<D: Disk>(
    alloc: Global,
    pages: &mut Pages,
    disk: &mut D,
    first: u32,
    met: &[u32],
) -> Result<Vec<u32>, PageRefusal>
    requires known { D.tells_content → IsPagesOf (D.told disk.old) pages.old }
    requires once { IsDistinct nat_eq met.now }

    ensures read { D.tells_content → IfOk result (λ list. IsFreeList (whole_pages (book_of (D.told disk.old) pages.old)) met.now first list.items) }
    ensures damaged { D.tells_content → IfErr result (λ refusal. IfDamaged refusal (λ file at. (file ≡ 0) × (here : ℕ) × (at ≡ 4096 * here) × FreeBreaksAt (whole_pages (book_of (D.told disk.old) pages.old)) met.now first here)) }

    ensures limited { IfErr result (λ refusal. IfPageLimit refusal (λ count limit. ⊥)) }
    ensures same { SameHead pages.old pages.new }
    ensures pages { D.tells_content → OnOk result (SameBook (book_of (D.told disk.old) pages.old) (book_of (D.told disk.new) pages.new)) }
    ensures known { D.tells_content → OnOk result (IsPagesOf (D.told disk.new) pages.new) }
    ensures others { OnlyPages (D.told disk.old).content (D.told disk.new).content }

    // Where a stop leaves a checkpoint before the call, it leaves that one during it and after it.
    ensures stops { D.tells_content → (saved : Checkpoint) → IsSafe saved (D.told disk.old) → EachStop (D.told disk.old) (D.told disk.new) (Covers saved) }
    ensures safe { D.tells_content → (saved : Checkpoint) → IsSafe saved (D.told disk.old) → OnOk result (IsSafe saved (D.told disk.new)) }

    ensures cause { HasCause (D.told disk.old).faults (D.told disk.new).faults (result ≡ Err PageRefusal.DiskFault) }
{
    let mut seen = page_set(alloc, met)?;
    let mut list = Vec::new(alloc);
    let mut here = first;
    while here != 0 {
        if !seen.insert(here)? {
            return Err(damaged_at(here));
        }
        let next = match read_free(alloc, pages, disk, here) {
            Ok(next) => next,
            Err(refusal) => return Err(refusal),
        };
        list.push(here)?;
        here = next;
    }
    Ok(list)
}

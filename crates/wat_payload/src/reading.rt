// A chain is read, page by page.
ghost use Rattle.std.specs.Prelude.{◌≡◌, ◌≢◌, ◌*◌, ◌<◌, ◌^◌, ◌++◌, [], ℕ, List, nat_eq, All, OnOk, IfOk, IfErr};
ghost use Rattle.std.specs.List.{IsDistinct};
ghost use Rattle.wat_disk.specs.Disk.{EachStop};
ghost use Rattle.wat_faults.specs.Faults.{HasCause};
ghost use Rattle.wat_restore.specs.Restored.{Checkpoint, OnlyPages};
ghost use Rattle.wat_restore.specs.Safe.{IsSafe, Covers};
ghost use Rattle.wat_book.specs.Book.{SameBook};
ghost use Rattle.wat_book.specs.Chains.{IsLink, IsNoLink, IsChain, all_pages, IsReadChain, BreaksAt};
ghost use Rattle.wat_images.specs.Refusal.{IfDamaged, IfPageLimit};
ghost use Rattle.wat_pages.specs.Pages.{count_of, IsPagesOf, SameHead, book_of};
ghost use Rattle.wat_payload.specs.Reading.{IsSetOf};

use crate::link::link_in;
use std::alloc::Global;
use std::collections::BTreeSet;
use wat_disk::{Disk, FileId};
use wat_list::NoMemory;
use wat_pages::{PageRefusal, Pages};
use wat_slot::Page;

/// A chain that was read: its pages in order, and the payload that they hold.
#[derive(Drop)]
pub struct Chain {
    pub pages: Vec<u32>,
    pub payload: Vec<u8>,
}

fn damaged_at(page: u32) -> PageRefusal
    ensures place { IfDamaged result (λ file at. (file ≡ 0) × (at ≡ 4096 * page)) }
    ensures limited { IfPageLimit result (λ count limit. ⊥) }
    ensures fault { result ≢ PageRefusal.DiskFault }
{
    PageRefusal::Damaged {
        file: FileId(0),
        at: 4096 * u64::from(page),
    }
}

/// The set of these pages.
fn set_of(alloc: Global, pages: &[u32]) -> Result<BTreeSet<u32>, NoMemory>
    ensures { IfOk result (λ set. IsSetOf set.keys pages.now) }
{
    let mut set = BTreeSet::new(alloc);
    for page in pages {
        set.insert(*page)?;
    }
    Ok(set)
}

/// Adds the part of the payload that a page of a chain has, and answers the next page, or 0.
fn read_part<D: Disk>(
    alloc: Global,
    pages: &mut Pages,
    disk: &mut D,
    page: u32,
    payload: &mut Vec<u8>,
) -> Result<u32, PageRefusal>
    requires known { D.tells_content → IsPagesOf (D.told disk.old) pages.old }

    ensures part { D.tells_content → IfOk result (λ next. (part : List ℕ) × IsLink (all_pages (book_of (D.told disk.old) pages.old) page) next part × (payload.new.items ≡ payload.old.items ++ part)) }
    ensures within { OnOk result (page < count_of pages.old) }
    ensures small { IfOk result (λ next. next < 2 ^ 32) }
    ensures damaged { D.tells_content → IfErr result (λ refusal. IfDamaged refusal (λ file at. (file ≡ 0) × (at ≡ 4096 * page) × IsNoLink (all_pages (book_of (D.told disk.old) pages.old) page))) }
    ensures limited { IfErr result (λ refusal. IfPageLimit refusal (λ count limit. ⊥)) }
    ensures same { SameHead pages.old pages.new }
    ensures pages { D.tells_content → OnOk result (SameBook (book_of (D.told disk.old) pages.old) (book_of (D.told disk.new) pages.new)) }
    ensures known { D.tells_content → OnOk result (IsPagesOf (D.told disk.new) pages.new) }
    ensures others { OnlyPages (D.told disk.old).content (D.told disk.new).content }
    ensures stops { D.tells_content → (saved : Checkpoint) → IsSafe saved (D.told disk.old) → EachStop (D.told disk.old) (D.told disk.new) (Covers saved) }
    ensures safe { D.tells_content → (saved : Checkpoint) → IsSafe saved (D.told disk.old) → OnOk result (IsSafe saved (D.told disk.new)) }
    ensures cause { HasCause (D.told disk.old).faults (D.told disk.new).faults (result ≡ Err PageRefusal.DiskFault) }
{
    if page >= pages.count() {
        return Err(damaged_at(page));
    }
    let mut bytes = Page::new(alloc)?;
    match pages.read_page(disk, page, &mut bytes) {
        Ok(()) => {}
        Err(refusal) => return Err(refusal),
    }
    match link_in(bytes.as_slice()) {
        Some((next, part)) => {
            payload.extend_from_slice(part)?;
            Ok(next)
        }
        None => Err(damaged_at(page)),
    }
}

/// Reads the chain that begins at a page, or the empty one where that is 0.
///
/// `Damaged` tells the first page that breaks the rules, in bytes from the start of the main file: one that comes twice or
/// was met before, or one that is no page of a chain below the count. `met` are the pages that were met before, each once.
pub fn read_chain<D: Disk>(
    alloc: Global,
    pages: &mut Pages,
    disk: &mut D,
    first: u32,
    met: &[u32],
) -> Result<Chain, PageRefusal>
    requires known { D.tells_content → IsPagesOf (D.told disk.old) pages.old }
    requires once { IsDistinct nat_eq met.now }

    ensures read { D.tells_content → IfOk result (λ chain. IsReadChain (all_pages (book_of (D.told disk.old) pages.old)) met.now first chain.pages.items chain.payload.items) }
    ensures once { IfOk result (λ chain. IsDistinct nat_eq (met.now ++ chain.pages.items)) }
    ensures numbered { IfOk result (λ chain. All (λ page. (0 < page) × (page < count_of pages.new)) chain.pages.items) }
    ensures damaged { D.tells_content → IfErr result (λ refusal. IfDamaged refusal (λ file at. (file ≡ 0) × (here : ℕ) × (at ≡ 4096 * here) × BreaksAt (all_pages (book_of (D.told disk.old) pages.old)) met.now first here)) }

    // A chain is not refused.
    ensures sound { D.tells_content → (list payload : List ℕ) → IsChain (all_pages (book_of (D.told disk.old) pages.old)) first list payload → met.now ≡ [] → IfErr result (λ refusal. IfDamaged refusal (λ file at. ⊥)) }

    ensures limited { IfErr result (λ refusal. IfPageLimit refusal (λ count limit. ⊥)) }
    ensures same { SameHead pages.old pages.new }
    ensures pages { D.tells_content → OnOk result (SameBook (book_of (D.told disk.old) pages.old) (book_of (D.told disk.new) pages.new)) }
    ensures known { D.tells_content → OnOk result (IsPagesOf (D.told disk.new) pages.new) }
    ensures others { OnlyPages (D.told disk.old).content (D.told disk.new).content }

    // Where a stop leaves a checkpoint before the call, it leaves that one during it and after it.
    ensures stops { D.tells_content → (saved : Checkpoint) → IsSafe saved (D.told disk.old) → EachStop (D.told disk.old) (D.told disk.new) (Covers saved) }
    ensures safe { D.tells_content → (saved : Checkpoint) → IsSafe saved (D.told disk.old) → OnOk result (IsSafe saved (D.told disk.new)) }

    ensures cause { HasCause (D.told disk.old).faults (D.told disk.new).faults (result ≡ Err PageRefusal.DiskFault) }
{
    let mut seen = set_of(alloc, met)?;
    let mut list = Vec::new(alloc);
    let mut payload = Vec::new(alloc);
    let mut here = first;
    while here != 0 {
        if !seen.insert(here)? {
            return Err(damaged_at(here));
        }
        let next = match read_part(alloc, pages, disk, here, &mut payload) {
            Ok(next) => next,
            Err(refusal) => return Err(refusal),
        };
        list.push(here)?;
        here = next;
    }
    Ok(Chain {
        pages: list,
        payload,
    })
}

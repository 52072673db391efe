// A chain is written anew.
ghost use Rattle.std.specs.Prelude.{◌≡◌, ◌≢◌, ◌⊎◌, ◌+◌, ◌-◌, ◌*◌, ◌<◌, ◌≤◌, ◌∷◌, ◌++◌, [], ℕ, List, length, All, OnOk, IfOk, IfErr};
ghost use Rattle.wat_disk.specs.Disk.{EachStop};
ghost use Rattle.wat_faults.specs.Faults.{HasCause};
ghost use Rattle.wat_restore.specs.Restored.{Checkpoint, OnlyPages};
ghost use Rattle.wat_restore.specs.Safe.{IsSafe, Covers};
ghost use Rattle.wat_book.specs.Book.{Owners, nobody, header, section, IsOwned, Worked};
ghost use Rattle.wat_book.specs.Chains.{HoldsPayload, HoldsBriefly};
ghost use Rattle.wat_images.specs.Refusal.{IfDamaged, IfPageLimit};
ghost use Rattle.wat_pages.specs.Within.{bound_of};
ghost use Rattle.wat_pages.specs.Pages.{count_of, limit_of, first_free_of, stored_of, header_of, IsPagesOf, SameHead, book_of};
ghost use Rattle.wat_payload.specs.Working.{IsLeft, IsTail, Freed, Took, LaidBriefly, IsWhole, WorkedTo};

use crate::link::link_page;
use crate::parts::{part, parts_in};
use crate::reading::read_chain;
use std::alloc::Global;
use wat_disk::Disk;
use wat_pages::{PageRefusal, Pages, Within};

/// Frees these pages.
fn free_pages<D: Disk>(pages: &mut Pages, disk: &mut D, list: &[u32]) -> Result<(), PageRefusal>
    requires known { D.tells_content → IsPagesOf (D.told disk.old) pages.old }
    requires numbered { All (λ page. (0 < page) × (page < count_of pages.old)) list.now }

    ensures freed { D.tells_content → (me kept : ℕ) (owners : Owners) (free : List ℕ) → me ≢ nobody → me ≢ header → IsOwned (book_of (D.told disk.old) pages.old) owners free
        → IsLeft (section (book_of (D.told disk.old) pages.old) owners me) kept list.now
        → OnOk result (Freed me (book_of (D.told disk.old) pages.old) owners free (book_of (D.told disk.new) pages.new) kept [] (length list.now)) }
    ensures count { count_of pages.new ≡ count_of pages.old }
    ensures limit { limit_of pages.new ≡ limit_of pages.old }
    ensures stored { stored_of pages.new ≡ stored_of pages.old }
    ensures header { header_of pages.new ≡ header_of pages.old }
    ensures known { D.tells_content → OnOk result (IsPagesOf (D.told disk.new) pages.new) }
    ensures others { OnlyPages (D.told disk.old).content (D.told disk.new).content }
    ensures stops { D.tells_content → (saved : Checkpoint) → IsSafe saved (D.told disk.old) → EachStop (D.told disk.old) (D.told disk.new) (Covers saved) }
    ensures safe { D.tells_content → (saved : Checkpoint) → IsSafe saved (D.told disk.old) → OnOk result (IsSafe saved (D.told disk.new)) }
    ensures undamaged { D.tells_content → (saved : Checkpoint) → IsSafe saved (D.told disk.old) → saved.count ≡ stored_of pages.old → IfErr result (λ refusal. IfDamaged refusal (λ file at. ⊥)) }
    ensures limited { IfErr result (λ refusal. IfPageLimit refusal (λ count limit. ⊥)) }
    ensures cause { HasCause (D.told disk.old).faults (D.told disk.new).faults (result ≡ Err PageRefusal.DiskFault) }
{
    for page in list {
        match pages.free_page(disk, *page) {
            Ok(()) => {}
            Err(refusal) => return Err(refusal),
        }
    }
    Ok(())
}

/// Takes a page, and makes it the one of a chain in front of this next page.
fn add_part<D: Disk>(
    alloc: Global,
    pages: &mut Pages,
    disk: &mut D,
    next: u32,
    part: &[u8],
    within: Within,
) -> Result<u32, PageRefusal>
    requires known { D.tells_content → IsPagesOf (D.told disk.old) pages.old }
    requires short { length part.now ≤ 4080 }

    ensures took { D.tells_content → (me kept : ℕ) (owners : Owners) (free list rest : List ℕ) → me ≢ nobody → me ≢ header → IsOwned (book_of (D.told disk.old) pages.old) owners free
        → IsTail (section (book_of (D.told disk.old) pages.old) owners me) kept next list rest
        → IfOk result (λ page. Took me (book_of (D.told disk.old) pages.old) owners free (book_of (D.told disk.new) pages.new) kept page (page ∷ list) (part.now ++ rest) 1) }
    ensures grows { count_of pages.old ≤ count_of pages.new }
    ensures within { D.tells_content → OnOk result ((count_of pages.new ≡ count_of pages.old) ⊎ (count_of pages.new ≤ bound_of within pages.old)) }
    ensures limit { limit_of pages.new ≡ limit_of pages.old }
    ensures stored { stored_of pages.new ≡ stored_of pages.old }
    ensures header { header_of pages.new ≡ header_of pages.old }
    ensures known { D.tells_content → OnOk result (IsPagesOf (D.told disk.new) pages.new) }
    ensures others { OnlyPages (D.told disk.old).content (D.told disk.new).content }
    ensures stops { D.tells_content → (saved : Checkpoint) → IsSafe saved (D.told disk.old) → EachStop (D.told disk.old) (D.told disk.new) (Covers saved) }
    ensures safe { D.tells_content → (saved : Checkpoint) → IsSafe saved (D.told disk.old) → OnOk result (IsSafe saved (D.told disk.new)) }
    ensures undamaged { D.tells_content → (saved : Checkpoint) (owners : Owners) (free : List ℕ) → IsSafe saved (D.told disk.old) → saved.count ≡ stored_of pages.old → IsOwned (book_of (D.told disk.old) pages.old) owners free
        → IfErr result (λ refusal. IfDamaged refusal (λ file at. ⊥)) }
    ensures limited { IfErr result (λ refusal. IfPageLimit refusal (λ count limit. (first_free_of pages.old ≡ 0) × (count ≡ count_of pages.old) × (limit ≡ bound_of within pages.old) × (limit ≤ count))) }
    ensures cause { HasCause (D.told disk.old).faults (D.told disk.new).faults (result ≡ Err PageRefusal.DiskFault) }
{
    let held = link_page(alloc, next, part)?;
    let page = match pages.new_page(disk, within) {
        Ok(page) => page,
        Err(refusal) => return Err(refusal),
    };
    match pages.write_page(disk, page, &held) {
        Ok(()) => Ok(page),
        Err(refusal) => Err(refusal),
    }
}

/// Lays a payload on pages that it takes, the last part first, and answers the first page, or 0 where the payload is empty.
fn write_parts<D: Disk>(
    alloc: Global,
    pages: &mut Pages,
    disk: &mut D,
    payload: &[u8],
    within: Within,
) -> Result<u32, PageRefusal>
    requires known { D.tells_content → IsPagesOf (D.told disk.old) pages.old }

    ensures laid { D.tells_content → (me kept : ℕ) (owners : Owners) (free : List ℕ) → me ≢ nobody → me ≢ header → IsOwned (book_of (D.told disk.old) pages.old) owners free
        → IsTail (section (book_of (D.told disk.old) pages.old) owners me) kept 0 [] []
        → IfOk result (λ first. LaidBriefly me (book_of (D.told disk.old) pages.old) owners free (book_of (D.told disk.new) pages.new) kept first payload.now) }
    ensures grows { count_of pages.old ≤ count_of pages.new }
    ensures within { D.tells_content → OnOk result ((count_of pages.new ≡ count_of pages.old) ⊎ (count_of pages.new ≤ bound_of within pages.old)) }
    ensures limit { limit_of pages.new ≡ limit_of pages.old }
    ensures stored { stored_of pages.new ≡ stored_of pages.old }
    ensures header { header_of pages.new ≡ header_of pages.old }
    ensures known { D.tells_content → OnOk result (IsPagesOf (D.told disk.new) pages.new) }
    ensures others { OnlyPages (D.told disk.old).content (D.told disk.new).content }
    ensures stops { D.tells_content → (saved : Checkpoint) → IsSafe saved (D.told disk.old) → EachStop (D.told disk.old) (D.told disk.new) (Covers saved) }
    ensures safe { D.tells_content → (saved : Checkpoint) → IsSafe saved (D.told disk.old) → OnOk result (IsSafe saved (D.told disk.new)) }
    ensures undamaged { D.tells_content → (saved : Checkpoint) (me kept : ℕ) (owners : Owners) (free : List ℕ) → IsSafe saved (D.told disk.old) → saved.count ≡ stored_of pages.old → me ≢ nobody → me ≢ header
        → IsOwned (book_of (D.told disk.old) pages.old) owners free → IsTail (section (book_of (D.told disk.old) pages.old) owners me) kept 0 [] []
        → IfErr result (λ refusal. IfDamaged refusal (λ file at. ⊥)) }
    ensures limited { IfErr result (λ refusal. IfPageLimit refusal (λ count limit. (count_of pages.old ≤ count) × (limit ≡ bound_of within pages.old) × (limit ≤ count))) }
    ensures needed { D.tells_content → (me kept : ℕ) (owners : Owners) (free : List ℕ) → me ≢ nobody → me ≢ header → IsOwned (book_of (D.told disk.old) pages.old) owners free
        → IsTail (section (book_of (D.told disk.old) pages.old) owners me) kept 0 [] []
        → IfErr result (λ refusal. IfPageLimit refusal (λ count limit. 4080 * (length free + (limit - count_of pages.old)) < length payload.now)) }
    ensures cause { HasCause (D.told disk.old).faults (D.told disk.new).faults (result ≡ Err PageRefusal.DiskFault) }
{
    let mut first = 0;
    let mut left = parts_in(payload.len());
    while left > 0 {
        left -= 1;
        first = match add_part(alloc, pages, disk, first, part(payload, left), within) {
            Ok(page) => page,
            Err(refusal) => return Err(refusal),
        };
    }
    Ok(first)
}

/// Makes a page that is in use the one of a chain in front of this next page.
fn write_part<D: Disk>(
    alloc: Global,
    pages: &mut Pages,
    disk: &mut D,
    page: u32,
    next: u32,
    part: &[u8],
) -> Result<(), PageRefusal>
    requires known { D.tells_content → IsPagesOf (D.told disk.old) pages.old }
    requires numbered { (0 < page) × (page < count_of pages.old) }
    requires short { length part.now ≤ 4080 }

    ensures written { D.tells_content → (me : ℕ) (owners : Owners) (free list rest : List ℕ) → me ≢ nobody → IsOwned (book_of (D.told disk.old) pages.old) owners free
        → IsTail (section (book_of (D.told disk.old) pages.old) owners me) page next list rest
        → OnOk result (WorkedTo me (book_of (D.told disk.old) pages.old) owners (book_of (D.told disk.new) pages.new) page (page ∷ list) (part.now ++ rest)) }
    ensures same { SameHead pages.old pages.new }
    ensures known { D.tells_content → OnOk result (IsPagesOf (D.told disk.new) pages.new) }
    ensures others { OnlyPages (D.told disk.old).content (D.told disk.new).content }
    ensures stops { D.tells_content → (saved : Checkpoint) → IsSafe saved (D.told disk.old) → EachStop (D.told disk.old) (D.told disk.new) (Covers saved) }
    ensures safe { D.tells_content → (saved : Checkpoint) → IsSafe saved (D.told disk.old) → OnOk result (IsSafe saved (D.told disk.new)) }
    ensures undamaged { D.tells_content → (saved : Checkpoint) → IsSafe saved (D.told disk.old) → saved.count ≡ stored_of pages.old → IfErr result (λ refusal. IfDamaged refusal (λ file at. ⊥)) }
    ensures limited { IfErr result (λ refusal. IfPageLimit refusal (λ count limit. ⊥)) }
    ensures cause { HasCause (D.told disk.old).faults (D.told disk.new).faults (result ≡ Err PageRefusal.DiskFault) }
{
    let held = link_page(alloc, next, part)?;
    match pages.write_page(disk, page, &held) {
        Ok(()) => Ok(()),
        Err(refusal) => Err(refusal),
    }
}

/// Writes a payload of one byte or more on a chain whose first page stays, and whose other pages are freed before.
fn rewrite<D: Disk>(
    alloc: Global,
    pages: &mut Pages,
    disk: &mut D,
    here: u32,
    behind: &[u32],
    payload: &[u8],
    within: Within,
) -> Result<(), PageRefusal>
    requires known { D.tells_content → IsPagesOf (D.told disk.old) pages.old }
    requires first { (0 < here) × (here < count_of pages.old) }
    requires numbered { All (λ page. (0 < page) × (page < count_of pages.old)) behind.now }
    requires some { 0 < length payload.now }

    ensures written { D.tells_content → (me : ℕ) (owners : Owners) (free : List ℕ) → me ≢ nobody → me ≢ header → IsOwned (book_of (D.told disk.old) pages.old) owners free
        → IsLeft (section (book_of (D.told disk.old) pages.old) owners me) here behind.now
        → OnOk result (Worked me (book_of (D.told disk.old) pages.old) owners (book_of (D.told disk.new) pages.new) (λ mine. HoldsBriefly mine here payload.now)) }
    ensures within { D.tells_content → OnOk result ((count_of pages.new ≡ count_of pages.old) ⊎ (count_of pages.new ≤ bound_of within pages.old)) }
    ensures limit { limit_of pages.new ≡ limit_of pages.old }
    ensures stored { stored_of pages.new ≡ stored_of pages.old }
    ensures header { header_of pages.new ≡ header_of pages.old }
    ensures known { D.tells_content → OnOk result (IsPagesOf (D.told disk.new) pages.new) }
    ensures others { OnlyPages (D.told disk.old).content (D.told disk.new).content }
    ensures stops { D.tells_content → (saved : Checkpoint) → IsSafe saved (D.told disk.old) → EachStop (D.told disk.old) (D.told disk.new) (Covers saved) }
    ensures safe { D.tells_content → (saved : Checkpoint) → IsSafe saved (D.told disk.old) → OnOk result (IsSafe saved (D.told disk.new)) }
    ensures undamaged { D.tells_content → (saved : Checkpoint) (me : ℕ) (owners : Owners) (free : List ℕ) → IsSafe saved (D.told disk.old) → saved.count ≡ stored_of pages.old → me ≢ nobody → me ≢ header
        → IsOwned (book_of (D.told disk.old) pages.old) owners free → IsLeft (section (book_of (D.told disk.old) pages.old) owners me) here behind.now
        → IfErr result (λ refusal. IfDamaged refusal (λ file at. ⊥)) }
    ensures limited { IfErr result (λ refusal. IfPageLimit refusal (λ count limit. (count_of pages.old ≤ count) × (limit ≡ bound_of within pages.old) × (limit ≤ count))) }
    ensures needed { D.tells_content → (me : ℕ) (owners : Owners) (free : List ℕ) → me ≢ nobody → me ≢ header → IsOwned (book_of (D.told disk.old) pages.old) owners free
        → IsLeft (section (book_of (D.told disk.old) pages.old) owners me) here behind.now
        → IfErr result (λ refusal. IfPageLimit refusal (λ count limit. 4080 * (1 + length behind.now + length free + (limit - count_of pages.old)) < length payload.now)) }
    ensures cause { HasCause (D.told disk.old).faults (D.told disk.new).faults (result ≡ Err PageRefusal.DiskFault) }
{
    match free_pages(pages, disk, behind) {
        Ok(()) => {}
        Err(refusal) => return Err(refusal),
    }
    let front = part(payload, 0);
    let next = match write_parts(alloc, pages, disk, &payload[front.len()..], within) {
        Ok(next) => next,
        Err(refusal) => return Err(refusal),
    };
    match write_part(alloc, pages, disk, here, next, front) {
        Ok(()) => Ok(()),
        Err(refusal) => Err(refusal),
    }
}

/// Writes a payload on the pages of one owner, which are this chain, and answers its first page, or 0 where the payload is empty.
fn write_over<D: Disk>(
    alloc: Global,
    pages: &mut Pages,
    disk: &mut D,
    list: &[u32],
    payload: &[u8],
    within: Within,
) -> Result<u32, PageRefusal>
    requires known { D.tells_content → IsPagesOf (D.told disk.old) pages.old }
    requires numbered { All (λ page. (0 < page) × (page < count_of pages.old)) list.now }

    ensures written { D.tells_content → (me first : ℕ) (owners : Owners) (free before : List ℕ) → me ≢ nobody → me ≢ header → IsOwned (book_of (D.told disk.old) pages.old) owners free
        → IsWhole (section (book_of (D.told disk.old) pages.old) owners me) first list.now before
        → IfOk result (λ now. Worked me (book_of (D.told disk.old) pages.old) owners (book_of (D.told disk.new) pages.new) (λ mine. HoldsBriefly mine now payload.now)) }
    ensures stays { (here : ℕ) (behind : List ℕ) → list.now ≡ here ∷ behind → payload.now ≢ [] → IfOk result (λ now. now ≡ here) }
    ensures within { D.tells_content → OnOk result ((count_of pages.new ≡ count_of pages.old) ⊎ (count_of pages.new ≤ bound_of within pages.old)) }
    ensures limit { limit_of pages.new ≡ limit_of pages.old }
    ensures stored { stored_of pages.new ≡ stored_of pages.old }
    ensures header { header_of pages.new ≡ header_of pages.old }
    ensures known { D.tells_content → OnOk result (IsPagesOf (D.told disk.new) pages.new) }
    ensures others { OnlyPages (D.told disk.old).content (D.told disk.new).content }
    ensures stops { D.tells_content → (saved : Checkpoint) → IsSafe saved (D.told disk.old) → EachStop (D.told disk.old) (D.told disk.new) (Covers saved) }
    ensures safe { D.tells_content → (saved : Checkpoint) → IsSafe saved (D.told disk.old) → OnOk result (IsSafe saved (D.told disk.new)) }
    ensures undamaged { D.tells_content → (saved : Checkpoint) (me first : ℕ) (owners : Owners) (free before : List ℕ) → IsSafe saved (D.told disk.old) → saved.count ≡ stored_of pages.old → me ≢ nobody → me ≢ header
        → IsOwned (book_of (D.told disk.old) pages.old) owners free → IsWhole (section (book_of (D.told disk.old) pages.old) owners me) first list.now before
        → IfErr result (λ refusal. IfDamaged refusal (λ file at. ⊥)) }
    ensures limited { IfErr result (λ refusal. IfPageLimit refusal (λ count limit. (count_of pages.old ≤ count) × (limit ≡ bound_of within pages.old) × (limit ≤ count))) }
    ensures needed { D.tells_content → (me first : ℕ) (owners : Owners) (free before : List ℕ) → me ≢ nobody → me ≢ header → IsOwned (book_of (D.told disk.old) pages.old) owners free
        → IsWhole (section (book_of (D.told disk.old) pages.old) owners me) first list.now before
        → IfErr result (λ refusal. IfPageLimit refusal (λ count limit. 4080 * (length list.now + length free + (limit - count_of pages.old)) < length payload.now)) }
    ensures cause { HasCause (D.told disk.old).faults (D.told disk.new).faults (result ≡ Err PageRefusal.DiskFault) }
{
    if payload.is_empty() {
        return match free_pages(pages, disk, list) {
            Ok(()) => Ok(0),
            Err(refusal) => Err(refusal),
        };
    }
    match list.split_first() {
        Some((here, behind)) => match rewrite(alloc, pages, disk, *here, behind, payload, within) {
            Ok(()) => Ok(*here),
            Err(refusal) => Err(refusal),
        },
        None => match write_parts(alloc, pages, disk, payload, within) {
            Ok(now) => Ok(now),
            Err(refusal) => Err(refusal),
        },
    }
}

/// Writes a payload on the chain of one owner that begins at a page, or on a new one where that is 0, and answers its first
/// page, or 0 where the payload is empty.
///
/// The chain has as few pages as the payload needs. Its first page stays where there is one. Its other pages are freed
/// before new ones are taken; `PageLimit` comes exactly where then too few are free and the count comes to the bound.
pub fn write_chain<D: Disk>(
    alloc: Global,
    pages: &mut Pages,
    disk: &mut D,
    first: u32,
    payload: &[u8],
    within: Within,
) -> Result<u32, PageRefusal>
    requires known { D.tells_content → IsPagesOf (D.told disk.old) pages.old }

    // The pages of the owner hold the payload then, and those of all others are as before.
    ensures written { D.tells_content → (me : ℕ) (owners : Owners) (free before : List ℕ) → me ≢ nobody → me ≢ header → IsOwned (book_of (D.told disk.old) pages.old) owners free
        → HoldsPayload (section (book_of (D.told disk.old) pages.old) owners me) first before
        → IfOk result (λ now. Worked me (book_of (D.told disk.old) pages.old) owners (book_of (D.told disk.new) pages.new) (λ mine. HoldsBriefly mine now payload.now)) }
    ensures stays { D.tells_content → first ≢ 0 → payload.now ≢ [] → IfOk result (λ now. now ≡ first) }

    ensures limit { limit_of pages.new ≡ limit_of pages.old }
    ensures stored { stored_of pages.new ≡ stored_of pages.old }
    ensures header { header_of pages.new ≡ header_of pages.old }
    ensures known { D.tells_content → OnOk result (IsPagesOf (D.told disk.new) pages.new) }
    ensures others { OnlyPages (D.told disk.old).content (D.told disk.new).content }

    // Where a stop leaves a checkpoint before the call, it leaves that one during it and after it.
    ensures stops { D.tells_content → (saved : Checkpoint) → IsSafe saved (D.told disk.old) → EachStop (D.told disk.old) (D.told disk.new) (Covers saved) }
    ensures safe { D.tells_content → (saved : Checkpoint) → IsSafe saved (D.told disk.old) → OnOk result (IsSafe saved (D.told disk.new)) }

    // The bound is kept to, and a refusal by it comes only where all pages that there are would not hold the payload.
    ensures within { D.tells_content → OnOk result ((count_of pages.new ≡ count_of pages.old) ⊎ (count_of pages.new ≤ bound_of within pages.old)) }
    ensures limited { IfErr result (λ refusal. IfPageLimit refusal (λ count limit. (count_of pages.old ≤ count) × (limit ≡ bound_of within pages.old) × (limit ≤ count))) }
    ensures needed { D.tells_content → (me : ℕ) (owners : Owners) (free before : List ℕ) → me ≢ nobody → me ≢ header → IsOwned (book_of (D.told disk.old) pages.old) owners free
        → (held : HoldsPayload (section (book_of (D.told disk.old) pages.old) owners me) first before)
        → IfErr result (λ refusal. IfPageLimit refusal (λ count limit. 4080 * (length held.list + length free + (limit - count_of pages.old)) < length payload.now)) }

    ensures undamaged { D.tells_content → (saved : Checkpoint) (me : ℕ) (owners : Owners) (free before : List ℕ) → IsSafe saved (D.told disk.old) → saved.count ≡ stored_of pages.old → me ≢ nobody → me ≢ header
        → IsOwned (book_of (D.told disk.old) pages.old) owners free → HoldsPayload (section (book_of (D.told disk.old) pages.old) owners me) first before
        → IfErr result (λ refusal. IfDamaged refusal (λ file at. ⊥)) }
    ensures cause { HasCause (D.told disk.old).faults (D.told disk.new).faults (result ≡ Err PageRefusal.DiskFault) }
{
    let old = match read_chain(alloc, pages, disk, first, &[]) {
        Ok(chain) => chain,
        Err(refusal) => return Err(refusal),
    };
    match write_over(alloc, pages, disk, old.pages.as_slice(), payload, within) {
        Ok(now) => Ok(now),
        Err(refusal) => Err(refusal),
    }
}

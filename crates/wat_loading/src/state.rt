// The rows of the pages, and whether the changes to roll back can be undone on them.
ghost use Rattle.std.specs.Prelude.{◌≡◌, ◌≢◌, ℕ, List, OnOk, IfOk, IfErr};
ghost use Rattle.wat_faults.specs.Faults.{HasCause};
ghost use Rattle.wat_images.specs.Refusal.{IfDamaged, IfPageLimit};
ghost use Rattle.wat_pages.specs.Pages.{IsPagesOf, book_of};
ghost use Rattle.wat_heap.specs.Heaps.{directory_of};
ghost use Rattle.wat_undo.specs.Kept.{lists_of};
ghost use Rattle.wat_files.specs.Formed.{FailsInRows};
ghost use Rattle.wat_free_list.specs.Whole.{whole_pages};
ghost use Rattle.wat_roots.specs.Roots.{HasRoots, head_now};
ghost use Rattle.wat_roots.specs.Went.{Went, Stays};
ghost use Rattle.wat_loading.specs.Parts.{HasRowsOf};

use crate::payloads::{Parts, damaged};
use std::alloc::Global;
use wat_disk::Disk;
use wat_heap::Heap;
use wat_pages::{PageRefusal, Pages};
use wat_roots::Roots;
use wat_row_pages::take_row_pages;
use wat_undoable::can_undo;

/// Takes over the rows of all other pages, on which the changes to roll back can be undone. `Damaged` tells the first page whose
/// rows fail, or else the first page of the changes, where these can't be undone.
pub(crate) fn take_state<D: Disk>(
    alloc: Global,
    pages: &mut Pages,
    disk: &mut D,
    roots: &Roots,
    parts: &Parts,
) -> Result<Heap, PageRefusal>
    requires known { D.tells_content → IsPagesOf (D.told disk.old) pages.old }

    ensures taken { D.tells_content → (has : HasRoots (whole_pages (book_of (D.told disk.old) pages.old)) (head_now pages.old) roots.now)
        → IfOk result (λ heap. HasRowsOf (book_of (D.told disk.old) pages.old) (head_now pages.old) has.chains parts.now.schema (lists_of parts.now.undo) (directory_of heap)) }
    ensures damaged { D.tells_content → (log : List ℕ) (has : HasRoots (whole_pages (book_of (D.told disk.old) pages.old)) (head_now pages.old) roots.now)
        → IfErr result (λ refusal. IfDamaged refusal (FailsInRows (whole_pages (book_of (D.told disk.old) pages.old)) log (head_now pages.old) has.chains parts.now.schema (lists_of parts.now.undo))) }
    ensures limited { IfErr result (λ refusal. IfPageLimit refusal (λ count limit. ⊥)) }
    ensures went { D.tells_content → Went (D.told disk.old) (D.told disk.new) pages.old pages.new }
    ensures stays { D.tells_content → OnOk result (Stays (D.told disk.old) (D.told disk.new) pages.old pages.new) }
    ensures cause { HasCause (D.told disk.old).faults (D.told disk.new).faults (result ≡ Err PageRefusal.DiskFault) }
{
    let heap = match take_row_pages(alloc, pages, disk, &parts.schema, roots.listed.as_slice()) {
        Ok(heap) => heap,
        Err(refusal) => return Err(refusal),
    };
    let rollback = pages.header().rollback;
    match can_undo(alloc, &heap, pages, disk, &parts.schema, &parts.undo) {
        Ok(true) => Ok(heap),
        Ok(false) => Err(damaged(rollback)),
        Err(refusal) => Err(refusal),
    }
}

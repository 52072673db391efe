// The rows of page after page are taken over.
ghost use Rattle.std.specs.Prelude.{◌≡◌, ◌≢◌, ◌*◌, ◌<◌, ◌≤◌, ℕ, List, None, true, false, nat_eq, OnOk, IfOk, IfErr};
ghost use Rattle.std.specs.List.{list_any};
ghost use Rattle.wat_faults.specs.Faults.{HasCause};
ghost use Rattle.wat_book.specs.Book.{Section};
ghost use Rattle.wat_images.specs.Refusal.{IfDamaged, IfPageLimit};
ghost use Rattle.wat_pages.specs.Pages.{count_of, page_in, IsPagesOf, book_of};
ghost use Rattle.wat_schema.specs.Catalog.{Catalog};
ghost use Rattle.wat_schema.specs.Stored.{IsCatalog, defs_of};
ghost use Rattle.wat_rows.specs.Rows.{RowMap};
ghost use Rattle.wat_directory.specs.Known.{Holds};
ghost use Rattle.wat_heap.specs.Heaps.{directory_of};
ghost use Rattle.wat_heap.specs.Taking.{def_in, IsRowPage, Takes};
ghost use Rattle.wat_files.specs.Rows.{emptied, other_pages, RowsStop};
ghost use Rattle.wat_files.specs.Formed.{IsAtPage};
ghost use Rattle.wat_payload.specs.Reading.{IsSetOf};
ghost use Rattle.wat_free_list.specs.Whole.{whole_pages};
ghost use Rattle.wat_roots.specs.Went.{Went, Stays};
ghost use Rattle.wat_row_pages.specs.Taken.{TakesTo};

use std::alloc::Global;
use std::collections::BTreeSet;
use wat_disk::Disk;
use wat_free_list::page_set;
use wat_heap::Heap;
use wat_pages::{PageRefusal, Pages};
use wat_schema::Schema;
use wat_value::TableDefs;

fn is_listed(set: &BTreeSet<u32>, page: u32) -> bool
    ensures { result ≡ list_any (nat_eq page) set.now.keys }
{
    set.contains(&page)
}

/// Takes over the rows of a page, unless it is listed.
fn take_other<D: Disk>(
    heap: &mut Heap,
    pages: &mut Pages,
    disk: &mut D,
    page: u32,
    defs: &TableDefs,
    listed: &BTreeSet<u32>,
) -> Result<(), PageRefusal>
    requires known { D.tells_content → IsPagesOf (D.told disk.old) pages.old }
    requires not_header { 1 ≤ page }
    requires page { page < count_of pages.old }

    ensures taken { D.tells_content → (taken : Section) (rows : RowMap) → Holds (directory_of heap.old) taken (def_in defs.now) rows → taken page ≡ None → list_any (nat_eq page) listed.now.keys ≡ false
        → OnOk result (Takes (def_in defs.now) (page_in (D.told disk.old) pages.old page) page taken rows (directory_of heap.new)) }
    ensures left { list_any (nat_eq page) listed.now.keys ≡ true → directory_of heap.new ≡ directory_of heap.old }
    ensures damaged { D.tells_content → (taken : Section) (rows : RowMap) → Holds (directory_of heap.old) taken (def_in defs.now) rows → taken page ≡ None
        → IfErr result (λ refusal. IfDamaged refusal (λ file at. (file ≡ 0) × (at ≡ 4096 * page) × (list_any (nat_eq page) listed.now.keys ≡ false) × ((after : RowMap) → IsRowPage (def_in defs.now) (page_in (D.told disk.old) pages.old page) rows after → ⊥))) }
    ensures limited { IfErr result (λ refusal. IfPageLimit refusal (λ count limit. ⊥)) }
    ensures went { D.tells_content → Went (D.told disk.old) (D.told disk.new) pages.old pages.new }
    ensures stays { D.tells_content → OnOk result (Stays (D.told disk.old) (D.told disk.new) pages.old pages.new) }
    ensures count { count_of pages.new ≡ count_of pages.old }
    ensures cause { HasCause (D.told disk.old).faults (D.told disk.new).faults (result ≡ Err PageRefusal.DiskFault) }
{
    if is_listed(listed, page) {
        return Ok(());
    }
    match heap.take_page(pages, disk, page, defs) {
        Ok(()) => Ok(()),
        Err(refusal) => Err(refusal),
    }
}

/// Takes over the rows of all pages that aren't listed.
fn take_pages<D: Disk>(
    alloc: Global,
    pages: &mut Pages,
    disk: &mut D,
    defs: &TableDefs,
    listed: &BTreeSet<u32>,
) -> Result<Heap, PageRefusal>
    requires known { D.tells_content → IsPagesOf (D.told disk.old) pages.old }

    ensures taken { D.tells_content → (schema : Catalog) (list : List ℕ) → IsCatalog schema → defs_of schema ≡ defs.now → IsSetOf listed.now.keys list
        → IfOk result (λ heap. TakesTo (book_of (D.told disk.old) pages.old) list schema (count_of pages.old) (directory_of heap)) }
    ensures damaged { D.tells_content → (schema : Catalog) (list : List ℕ) → IsCatalog schema → defs_of schema ≡ defs.now → IsSetOf listed.now.keys list
        → IfErr result (λ refusal. IfDamaged refusal (λ file at. IsAtPage file at (RowsStop (whole_pages (book_of (D.told disk.old) pages.old)) (other_pages (count_of pages.old) list) (emptied schema)))) }
    ensures limited { IfErr result (λ refusal. IfPageLimit refusal (λ count limit. ⊥)) }
    ensures went { D.tells_content → Went (D.told disk.old) (D.told disk.new) pages.old pages.new }
    ensures stays { D.tells_content → OnOk result (Stays (D.told disk.old) (D.told disk.new) pages.old pages.new) }
    ensures cause { HasCause (D.told disk.old).faults (D.told disk.new).faults (result ≡ Err PageRefusal.DiskFault) }
{
    let mut heap = Heap::new(alloc);
    let count = pages.count();
    let mut page = 1;
    while page < count {
        match take_other(&mut heap, pages, disk, page, defs, listed) {
            Ok(()) => {}
            Err(refusal) => return Err(refusal),
        }
        page += 1;
    }
    Ok(heap)
}

/// Takes over the rows of all pages but the header's and the listed ones, in ascending order, into the tables of the schema.
///
/// `Damaged` tells the first of them that is no row page or has a row that can't be put into the tables: its table doesn't
/// stand, its values don't fit, or a row has its key already.
pub fn take_row_pages<D: Disk>(
    alloc: Global,
    pages: &mut Pages,
    disk: &mut D,
    schema: &Schema,
    listed: &[u32],
) -> Result<Heap, PageRefusal>
    requires known { D.tells_content → IsPagesOf (D.told disk.old) pages.old }

    ensures taken { D.tells_content → IfOk result (λ heap. TakesTo (book_of (D.told disk.old) pages.old) listed.now schema.now (count_of pages.old) (directory_of heap)) }
    ensures damaged { D.tells_content → IfErr result (λ refusal. IfDamaged refusal (λ file at. IsAtPage file at (RowsStop (whole_pages (book_of (D.told disk.old) pages.old)) (other_pages (count_of pages.old) listed.now) (emptied schema.now)))) }
    ensures limited { IfErr result (λ refusal. IfPageLimit refusal (λ count limit. ⊥)) }

    // All pages are as before, and a stop leaves the last checkpoint.
    ensures went { D.tells_content → Went (D.told disk.old) (D.told disk.new) pages.old pages.new }
    ensures stays { D.tells_content → OnOk result (Stays (D.told disk.old) (D.told disk.new) pages.old pages.new) }

    ensures cause { HasCause (D.told disk.old).faults (D.told disk.new).faults (result ≡ Err PageRefusal.DiskFault) }
{
    schema.catalog_law();
    let defs = match schema.defs() {
        Ok(defs) => defs,
        Err(_) => return Err(PageRefusal::Memory),
    };
    let set = match page_set(alloc, listed) {
        Ok(set) => set,
        Err(_) => return Err(PageRefusal::Memory),
    };
    match take_pages(alloc, pages, disk, &defs, &set) {
        Ok(heap) => Ok(heap),
        Err(refusal) => Err(refusal),
    }
}

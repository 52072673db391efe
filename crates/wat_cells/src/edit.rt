// One page's cells are read and changed.
ghost use Rattle.std.specs.Prelude.{◌≡◌, ◌↔◌, ◌+◌, ◌*◌, ◌<◌, ◌≤◌, ℕ, List, length, Some, false, IsTrue, IfOk, IfErr, OnOk, IfSome, IfNone, MatchOption};
ghost use Rattle.std.specs.List.{slice_get};
ghost use Rattle.wat_faults.specs.Faults.{HasCause};
ghost use Rattle.wat_restore.specs.Restored.{Checkpoint};
ghost use Rattle.wat_restore.specs.Safe.{IsSafe};
ghost use Rattle.wat_book.specs.Book.{SameBook};
ghost use Rattle.wat_slot.specs.Cells.{cells_bytes, IsCellPage};
ghost use Rattle.wat_images.specs.Refusal.{IfDamaged, IfPageLimit};
ghost use Rattle.wat_pages.specs.Pages.{count_of, stored_of, page_in, book_of, IsPagesOf, SameHead};
ghost use Rattle.wat_cells.specs.Edit.{edited, CanEdit};
ghost use Rattle.wat_cells.specs.Going.{Goes, Keeps};
ghost use Rattle.wat_cells.specs.Wrote.{WroteCells};

use std::alloc::Global;
use wat_disk::{Disk, FileId};
use wat_list::NoMemory;
use wat_pages::{PageRefusal, Pages};
use wat_slot::{Cell, Cells, Page, cells, put_cells};

/// A change of a page's cells.
#[derive(Drop)]
pub enum Edit {
    /// A cell more, behind the others.
    Push(Cell),
    /// This cell in the place of the one that stands there.
    Set(usize, Cell),
    /// The cell that stands there goes.
    Remove(usize),
}

/// Changes the cells. It is `false` where the cell isn't there.
fn edit_cells(cells: &mut Cells, edit: Edit) -> Result<bool, NoMemory>
    ensures there { IfOk result (λ done. IsTrue done ↔ CanEdit edit cells.old) }
    ensures edited { IfOk result (λ done. IsTrue done → cells.new ≡ edited edit cells.old) }
{
    match edit {
        Edit::Push(cell) => {
            cells.push(cell)?;
            Ok(true)
        }
        Edit::Set(i, cell) => {
            if i >= cells.len() {
                return Ok(false);
            }
            cells.set(i, cell);
            Ok(true)
        }
        Edit::Remove(i) => {
            if i >= cells.len() {
                return Ok(false);
            }
            cells.remove(i);
            Ok(true)
        }
    }
}

/// How many bytes the cells take, with their lengths.
fn used_by(cells: &[Cell]) -> u32
    requires { length (cells_bytes cells.now) ≤ 4080 }
    ensures { result ≡ length (cells_bytes cells.now) }
{
    let mut used = 0;
    for cell in cells {
        used += 2 + cell.len();
    }
    used as u32
}

/// A page that isn't as the heap knows it.
pub fn damaged(page: u32) -> PageRefusal
    ensures damaged { IfDamaged result (λ file at. (file ≡ 0) × (at ≡ 4096 * page)) }
    ensures limited { IfPageLimit result (λ count limit. ⊥) }
    ensures fault { result ≡ PageRefusal.DiskFault → ⊥ }
{
    PageRefusal::Damaged {
        file: FileId(0),
        at: 4096 * u64::from(page),
    }
}

/// The cells of a row page.
pub fn read_cells<D: Disk>(
    alloc: Global,
    pages: &mut Pages,
    disk: &mut D,
    page: u32,
) -> Result<Cells, PageRefusal>
    requires known { D.tells_content → IsPagesOf (D.told disk.old) pages.old }
    requires page { page < count_of pages.old }

    ensures cells { D.tells_content → IfOk result (IsCellPage (page_in (D.told disk.old) pages.old page)) }
    ensures fit { IfOk result (λ cells. length (cells_bytes cells) ≤ 4080) }
    ensures same { D.tells_content → OnOk result (SameBook (book_of (D.told disk.old) pages.old) (book_of (D.told disk.new) pages.new)) }
    ensures head { SameHead pages.old pages.new }
    ensures goes { D.tells_content → Goes (D.told disk.old) (D.told disk.new) pages.old pages.new }
    ensures keeps { D.tells_content → OnOk result (Keeps (D.told disk.old) (D.told disk.new) pages.new) }
    ensures damaged { D.tells_content → IfErr result (λ refusal. IfDamaged refusal (λ file at. (file ≡ 0) × (at ≡ 4096 * page) × ((cells : List (List ℕ)) → IsCellPage (page_in (D.told disk.old) pages.old page) cells → ⊥))) }
    ensures limited { IfErr result (λ refusal. IfPageLimit refusal (λ count limit. ⊥)) }
    ensures cause { HasCause (D.told disk.old).faults (D.told disk.new).faults (result ≡ Err PageRefusal.DiskFault) }
{
    let mut bytes = Page::new(alloc)?;
    match pages.read_page(disk, page, &mut bytes) {
        Ok(()) => {}
        Err(refusal) => return Err(refusal),
    }
    match cells(alloc, &bytes) {
        Ok(Some(cells)) => Ok(cells),
        Ok(None) => Err(damaged(page)),
        Err(_) => Err(PageRefusal::Memory),
    }
}

/// Makes a page one of these cells, and answers how many bytes they take. Where they have no room it changes nothing.
pub fn write_cells<D: Disk>(
    alloc: Global,
    pages: &mut Pages,
    disk: &mut D,
    page: u32,
    cells: &Cells,
) -> Result<Option<u32>, PageRefusal>
    requires known { D.tells_content → IsPagesOf (D.told disk.old) pages.old }
    requires not_header { 1 ≤ page }
    requires page { page < count_of pages.old }

    ensures used { IfOk result (λ o. MatchOption o (4080 < length (cells_bytes cells.now)) (λ used. used ≡ length (cells_bytes cells.now))) }
    ensures room { IfOk result (λ o. IfSome o (λ used. used ≤ 4080)) }
    ensures written { D.tells_content → IfOk result (λ o. IfSome o (λ _. WroteCells page cells.now (book_of (D.told disk.old) pages.old) (book_of (D.told disk.new) pages.new))) }
    ensures same { D.tells_content → IfOk result (λ o. IfNone o (SameBook (book_of (D.told disk.old) pages.old) (book_of (D.told disk.new) pages.new))) }
    ensures head { SameHead pages.old pages.new }
    ensures goes { D.tells_content → Goes (D.told disk.old) (D.told disk.new) pages.old pages.new }
    ensures keeps { D.tells_content → OnOk result (Keeps (D.told disk.old) (D.told disk.new) pages.new) }
    ensures undamaged { D.tells_content → (saved : Checkpoint) → IsSafe saved (D.told disk.old) → saved.count ≡ stored_of pages.old → IfErr result (λ refusal. IfDamaged refusal (λ file at. ⊥)) }
    ensures limited { IfErr result (λ refusal. IfPageLimit refusal (λ count limit. ⊥)) }
    ensures cause { HasCause (D.told disk.old).faults (D.told disk.new).faults (result ≡ Err PageRefusal.DiskFault) }
{
    let mut bytes = Page::new(alloc)?;
    if !put_cells(cells, &mut bytes) {
        return Ok(None);
    }
    match pages.write_page(disk, page, &bytes) {
        Ok(()) => Ok(Some(used_by(cells.as_slice()))),
        Err(refusal) => Err(refusal),
    }
}

/// Changes the cells of a row page, and answers how many bytes they take then. Where they have no room it changes nothing.
pub fn rewrite<D: Disk>(
    alloc: Global,
    pages: &mut Pages,
    disk: &mut D,
    page: u32,
    edit: Edit,
) -> Result<Option<u32>, PageRefusal>
    requires known { D.tells_content → IsPagesOf (D.told disk.old) pages.old }
    requires not_header { 1 ≤ page }
    requires page { page < count_of pages.old }

    ensures used { D.tells_content → (cells : List (List ℕ)) → IsCellPage (page_in (D.told disk.old) pages.old page) cells → CanEdit edit cells
        → IfOk result (λ o. MatchOption o (4080 < length (cells_bytes (edited edit cells))) (λ used. used ≡ length (cells_bytes (edited edit cells)))) }
    ensures written { D.tells_content → (cells : List (List ℕ)) → IsCellPage (page_in (D.told disk.old) pages.old page) cells → CanEdit edit cells
        → IfOk result (λ o. IfSome o (λ _. WroteCells page (edited edit cells) (book_of (D.told disk.old) pages.old) (book_of (D.told disk.new) pages.new))) }
    ensures same { D.tells_content → IfOk result (λ o. IfNone o (SameBook (book_of (D.told disk.old) pages.old) (book_of (D.told disk.new) pages.new))) }
    ensures head { SameHead pages.old pages.new }
    ensures goes { D.tells_content → Goes (D.told disk.old) (D.told disk.new) pages.old pages.new }
    ensures keeps { D.tells_content → OnOk result (Keeps (D.told disk.old) (D.told disk.new) pages.new) }
    ensures undamaged { D.tells_content → (saved : Checkpoint) → IsSafe saved (D.told disk.old) → saved.count ≡ stored_of pages.old
        → (cells : List (List ℕ)) → IsCellPage (page_in (D.told disk.old) pages.old page) cells → CanEdit edit cells → IfErr result (λ refusal. IfDamaged refusal (λ file at. ⊥)) }
    ensures limited { IfErr result (λ refusal. IfPageLimit refusal (λ count limit. ⊥)) }
    ensures cause { HasCause (D.told disk.old).faults (D.told disk.new).faults (result ≡ Err PageRefusal.DiskFault) }
{
    let mut held = match read_cells(alloc, pages, disk, page) {
        Ok(cells) => cells,
        Err(refusal) => return Err(refusal),
    };
    match edit_cells(&mut held, edit) {
        Ok(true) => {}
        Ok(false) => return Err(damaged(page)),
        Err(_) => return Err(PageRefusal::Memory),
    }
    match write_cells(alloc, pages, disk, page, &held) {
        Ok(used) => Ok(used),
        Err(refusal) => Err(refusal),
    }
}

// Rows are put onto pages, changed there, and taken off.
ghost use Rattle.std.specs.Prelude.{◌≡◌, ◌≢◌, ◌⊎◌, ◌↔◌, ◌+◌, ◌*◌, ◌<◌, ◌≤◌, ◌==◌, ◌++◌, ◌∷◌, [], ℕ, List, length, Some, None, true, false, if◌then◌else◌, IsSome, IsTrue, IfOk, IfErr, OnOk, IfSome};
ghost use Rattle.wat_list.specs.Has.{Has};
ghost use Rattle.wat_list.specs.Rising.{rising};
ghost use Rattle.wat_faults.specs.Faults.{HasCause};
ghost use Rattle.wat_restore.specs.Restored.{Checkpoint};
ghost use Rattle.wat_restore.specs.Safe.{IsSafe};
ghost use Rattle.wat_book.specs.Book.{Owners, Section, section, IsOwned, SameBook, Worked};
ghost use Rattle.wat_images.specs.Refusal.{IfDamaged, IfPageLimit};
ghost use Rattle.wat_pages.specs.Pages.{count_of, stored_of, first_free_of, page_in, book_of, IsPagesOf, SameHead};
ghost use Rattle.wat_pages.specs.Within.{bound_of};
ghost use Rattle.wat_slot.specs.Cells.{cells_bytes, IsCellPage};
ghost use Rattle.wat_value.specs.Encoding.{row_bytes, IsEncodable};
ghost use Rattle.wat_value.specs.Order.{key_cmp};
ghost use Rattle.wat_rows.specs.Rows.{Row, RowMap, Defs, IsRowOf, Sets, row_cell, size_of};
ghost use Rattle.wat_rows.specs.Pages.{of_rows};
ghost use Rattle.wat_directory.specs.Known.{HasOwnRoom, Holds, IsRoomy, IsLeastRoom, NoRoom, IsChosen, LessUsed, NoRoomFor, names_in, page_at, place_at, row_pages, spot_at, used_bytes};
ghost use Rattle.wat_directory.specs.declared.directory.Spot.{Spot as Place};
ghost use Rattle.wat_directory.specs.declared.row_page.RowPage.{RowPage};
ghost use Rattle.wat_rows.specs.declared.name.RowName.{RowName as Name};
ghost use Rattle.wat_cells.specs.Going.{Goes, Keeps};
ghost use Rattle.wat_heap.specs.Taking.{def_in, IsRowPage, Takes};

use crate::taking::take_rows;
use std::alloc::Global;
use wat_cells::{Edit, damaged, read_cells, rewrite, write_cells};
use wat_directory::{Directory, Spot};
use wat_disk::Disk;
use wat_list::{Copied, Items, NoMemory};
use wat_pages::{PageRefusal, Pages, Within};
use wat_rows::{RowName, row_cell, row_in_cell};
use wat_slot::{Cell, Cells};
use wat_value::{Key, Keys, Row, TableDefs};

/// The rows of all tables, on pages. In memory it keeps on which page each row stands, and as which of its cells.
///
/// After a refusal of a call on pages the heap is not used again.
#[derive(Drop)]
pub struct Heap {
    alloc: Global,
    directory: Directory,
}

/// A row page has a number from 1 on below the count.
fn in_use(pages: &Pages, page: u32) -> Result<(), PageRefusal>
    ensures some { OnOk result (1 ≤ page) }
    ensures below { OnOk result (page < count_of pages.now) }
    ensures small { OnOk result (page < 4294967295) }
    ensures refused { IfErr result (λ refusal. 1 ≤ page → page < count_of pages.now → ⊥) }
    ensures limited { IfErr result (λ refusal. IfPageLimit refusal (λ count limit. ⊥)) }
    ensures fault { result ≡ Err PageRefusal.DiskFault → ⊥ }
{
    if page == 0 || page >= pages.count() {
        return Err(damaged(page));
    }
    Ok(())
}

/// The row in a cell.
fn row_of(alloc: Global, cells: &[Cell], cell: usize) -> Result<Option<Row>, NoMemory>
    ensures { (front back : List (List ℕ)) (table : ℕ) (row : Row) → cells.now ≡ front ++ row_cell table row ∷ back → length front ≡ cell → table < 4294967296 → IsEncodable row → IfOk result (λ o. o ≡ Some row) }
{
    let Some(cell) = cells.get(cell) else {
        return Ok(None);
    };
    match row_in_cell(alloc, cell.as_slice())? {
        Some((_, row)) => Ok(Some(row)),
        None => Ok(None),
    }
}

/// The cells of a page with this one alone.
fn alone(alloc: Global, cell: Cell) -> Result<Cells, NoMemory>
    ensures { IfOk result (λ cells. cells ≡ cell ∷ []) }
{
    let mut cells = Items::new(alloc);
    cells.push(cell)?;
    Ok(cells)
}

/// How many bytes the cell takes on a page.
fn size_of(cell: &Cell) -> u16
    requires { length cell.now ≤ 3504 }
    ensures { result ≡ size_of cell.now }
{
    2 + cell.len() as u16
}

impl Heap {
    ghost use Rattle.wat_heap.specs.Heaps.{IsHeld};

    /// A heap of no pages.
    pub fn new(alloc: Global) -> Self
        ensures { (defs : Defs) → Holds result.directory (λ page. None) defs (λ table key. None) }
    {
        Heap {
            alloc,
            directory: Directory::new(alloc),
        }
    }

    /// Puts a new row behind those of a page.
    fn put_into<D: Disk>(
        &mut self,
        pages: &mut Pages,
        disk: &mut D,
        page: u32,
        name: RowName,
        cell: Cell,
    ) -> Result<(), PageRefusal>
        requires known { D.tells_content → IsPagesOf (D.told disk.old) pages.old }

        ensures put { D.tells_content → (owners : Owners) (free : List ℕ) (defs : Defs) (rows : RowMap) → IsHeld self.old.directory (book_of (D.told disk.old) pages.old) owners free defs rows → (after : RowMap) (row : Row) → IsRowOf defs (record { name = name; row = row }) → cell ≡ row_cell name.table row
            → IsRoomy self.old.directory page (size_of cell) → place_at self.old.directory name.table name.key ≡ None → Sets rows name.table name.key (Some row) after → OnOk result (Worked of_rows (book_of (D.told disk.old) pages.old) owners (book_of (D.told disk.new) pages.new) (λ mine. Holds self.new.directory mine defs after)) }
        ensures placed { OnOk result (place_at self.new.directory name.table name.key ≡ Some page) }
        ensures pages { IsSome (page_at self.old.directory page) → OnOk result (row_pages self.new.directory ≡ row_pages self.old.directory) }
        ensures head { SameHead pages.old pages.new }
        ensures goes { D.tells_content → Goes (D.told disk.old) (D.told disk.new) pages.old pages.new }
        ensures keeps { D.tells_content → OnOk result (Keeps (D.told disk.old) (D.told disk.new) pages.new) }
        ensures undamaged { D.tells_content → (saved : Checkpoint) → IsSafe saved (D.told disk.old) → saved.count ≡ stored_of pages.old
            → (owners : Owners) (free : List ℕ) (defs : Defs) (rows : RowMap) → IsHeld self.old.directory (book_of (D.told disk.old) pages.old) owners free defs rows → IsRoomy self.old.directory page (size_of cell) → IfErr result (λ refusal. IfDamaged refusal (λ file at. ⊥)) }
        ensures limited { IfErr result (λ refusal. IfPageLimit refusal (λ count limit. ⊥)) }
        ensures cause { HasCause (D.told disk.old).faults (D.told disk.new).faults (result ≡ Err PageRefusal.DiskFault) }
    {
        match in_use(pages, page) {
            Ok(()) => {}
            Err(refusal) => return Err(refusal),
        }
        let used = match rewrite(self.alloc, pages, disk, page, Edit::Push(cell)) {
            Ok(Some(used)) => used,
            Ok(None) => return Err(damaged(page)),
            Err(refusal) => return Err(refusal),
        };
        match self.directory.add(page, used, name) {
            Ok(()) => Ok(()),
            Err(_) => Err(PageRefusal::Memory),
        }
    }

    /// Puts a new row onto a page that was free or new.
    fn put_on_new<D: Disk>(
        &mut self,
        pages: &mut Pages,
        disk: &mut D,
        name: RowName,
        cell: Cell,
        within: Within,
    ) -> Result<(), PageRefusal>
        requires known { D.tells_content → IsPagesOf (D.told disk.old) pages.old }
        requires short { length cell ≤ 3504 }

        ensures put { D.tells_content → (owners : Owners) (free : List ℕ) (defs : Defs) (rows : RowMap) → IsHeld self.old.directory (book_of (D.told disk.old) pages.old) owners free defs rows → (after : RowMap) (row : Row) → IsRowOf defs (record { name = name; row = row }) → cell ≡ row_cell name.table row
            → place_at self.old.directory name.table name.key ≡ None → Sets rows name.table name.key (Some row) after → OnOk result (Worked of_rows (book_of (D.told disk.old) pages.old) owners (book_of (D.told disk.new) pages.new) (λ mine. Holds self.new.directory mine defs after)) }
        ensures pages { D.tells_content → (owners : Owners) (free : List ℕ) (defs : Defs) (rows : RowMap) → IsHeld self.old.directory (book_of (D.told disk.old) pages.old) owners free defs rows → OnOk result (row_pages self.new.directory ≡ row_pages self.old.directory + 1) }
        ensures goes { D.tells_content → Goes (D.told disk.old) (D.told disk.new) pages.old pages.new }
        ensures keeps { D.tells_content → OnOk result (Keeps (D.told disk.old) (D.told disk.new) pages.new) }
        ensures undamaged { D.tells_content → (saved : Checkpoint) → IsSafe saved (D.told disk.old) → saved.count ≡ stored_of pages.old
            → (owners : Owners) (free : List ℕ) (defs : Defs) (rows : RowMap) → IsHeld self.old.directory (book_of (D.told disk.old) pages.old) owners free defs rows → IfErr result (λ refusal. IfDamaged refusal (λ file at. ⊥)) }
        ensures limited { IfErr result (λ refusal. IfPageLimit refusal (λ count limit. (first_free_of pages.old ≡ 0) × (count ≡ count_of pages.old) × (limit ≡ bound_of within pages.old) × (limit ≤ count))) }
        ensures cause { HasCause (D.told disk.old).faults (D.told disk.new).faults (result ≡ Err PageRefusal.DiskFault) }
    {
        let page = match pages.new_page(disk, within) {
            Ok(page) => page,
            Err(refusal) => return Err(refusal),
        };
        match in_use(pages, page) {
            Ok(()) => {}
            Err(refusal) => return Err(refusal),
        }
        let cells = match alone(self.alloc, cell) {
            Ok(cells) => cells,
            Err(_) => return Err(PageRefusal::Memory),
        };
        let used = match write_cells(self.alloc, pages, disk, page, &cells) {
            Ok(Some(used)) => used,
            Ok(None) => return Err(damaged(page)),
            Err(refusal) => return Err(refusal),
        };
        match self.directory.add(page, used, name) {
            Ok(()) => Ok(()),
            Err(_) => Err(PageRefusal::Memory),
        }
    }

    /// Puts a new row onto the least page with room, or else onto a page that was free or new.
    fn put_new<D: Disk>(
        &mut self,
        pages: &mut Pages,
        disk: &mut D,
        name: RowName,
        cell: Cell,
        within: Within,
    ) -> Result<(), PageRefusal>
        requires known { D.tells_content → IsPagesOf (D.told disk.old) pages.old }
        requires short { length cell ≤ 3504 }

        ensures put { D.tells_content → (owners : Owners) (free : List ℕ) (defs : Defs) (rows : RowMap) → IsHeld self.old.directory (book_of (D.told disk.old) pages.old) owners free defs rows → (after : RowMap) (row : Row) → IsRowOf defs (record { name = name; row = row }) → cell ≡ row_cell name.table row
            → place_at self.old.directory name.table name.key ≡ None → Sets rows name.table name.key (Some row) after → OnOk result (Worked of_rows (book_of (D.told disk.old) pages.old) owners (book_of (D.told disk.new) pages.new) (λ mine. Holds self.new.directory mine defs after)) }
        ensures least { D.tells_content → (owners : Owners) (free : List ℕ) (defs : Defs) (rows : RowMap) → IsHeld self.old.directory (book_of (D.told disk.old) pages.old) owners free defs rows → (page : ℕ) → IsLeastRoom self.old.directory (size_of cell) page
            → OnOk result (place_at self.new.directory name.table name.key ≡ Some page) }
        ensures taken { D.tells_content → (owners : Owners) (free : List ℕ) (defs : Defs) (rows : RowMap) → IsHeld self.old.directory (book_of (D.told disk.old) pages.old) owners free defs rows
            → OnOk result ((row_pages self.new.directory ≡ row_pages self.old.directory) ⊎ (NoRoom self.old.directory (size_of cell) × (row_pages self.new.directory ≡ row_pages self.old.directory + 1))) }
        ensures needed { D.tells_content → (owners : Owners) (free : List ℕ) (defs : Defs) (rows : RowMap) → IsHeld self.old.directory (book_of (D.told disk.old) pages.old) owners free defs rows → NoRoom self.old.directory (size_of cell) → OnOk result (row_pages self.new.directory ≡ row_pages self.old.directory + 1) }
        ensures crowded { D.tells_content → (owners : Owners) (free : List ℕ) (defs : Defs) (rows : RowMap) → IsHeld self.old.directory (book_of (D.told disk.old) pages.old) owners free defs rows → IfErr result (λ refusal. IfPageLimit refusal (λ count limit. NoRoom self.old.directory (size_of cell))) }
        ensures goes { D.tells_content → Goes (D.told disk.old) (D.told disk.new) pages.old pages.new }
        ensures keeps { D.tells_content → OnOk result (Keeps (D.told disk.old) (D.told disk.new) pages.new) }
        ensures undamaged { D.tells_content → (saved : Checkpoint) → IsSafe saved (D.told disk.old) → saved.count ≡ stored_of pages.old
            → (owners : Owners) (free : List ℕ) (defs : Defs) (rows : RowMap) → IsHeld self.old.directory (book_of (D.told disk.old) pages.old) owners free defs rows → IfErr result (λ refusal. IfDamaged refusal (λ file at. ⊥)) }
        ensures limited { IfErr result (λ refusal. IfPageLimit refusal (λ count limit. (first_free_of pages.old ≡ 0) × (count ≡ count_of pages.old) × (limit ≡ bound_of within pages.old) × (limit ≤ count))) }
        ensures cause { HasCause (D.told disk.old).faults (D.told disk.new).faults (result ≡ Err PageRefusal.DiskFault) }
    {
        match self.directory.least_with(size_of(&cell)) {
            Some(page) => self.put_into(pages, disk, page, name, cell),
            None => self.put_on_new(pages, disk, name, cell, within),
        }
    }

    /// Puts a row in the place of that with its name. It is `false` where the page has no room, and then nothing is changed.
    fn replace<D: Disk>(
        &mut self,
        pages: &mut Pages,
        disk: &mut D,
        spot: Spot,
        cell: Cell,
    ) -> Result<bool, PageRefusal>
        requires known { D.tells_content → IsPagesOf (D.told disk.old) pages.old }

        ensures put { D.tells_content → (owners : Owners) (free : List ℕ) (defs : Defs) (rows : RowMap) → IsHeld self.old.directory (book_of (D.told disk.old) pages.old) owners free defs rows → (name : Name) → (after : RowMap) (row : Row) → IsRowOf defs (record { name = name; row = row }) → cell ≡ row_cell name.table row → spot_at self.old.directory name.table name.key ≡ Some spot → Sets rows name.table name.key (Some row) after
            → IfOk result (λ done. IsTrue done → Worked of_rows (book_of (D.told disk.old) pages.old) owners (book_of (D.told disk.new) pages.new) (λ mine. Holds self.new.directory mine defs after)) }
        ensures pages { D.tells_content → (owners : Owners) (free : List ℕ) (defs : Defs) (rows : RowMap) → IsHeld self.old.directory (book_of (D.told disk.old) pages.old) owners free defs rows → (table : ℕ) (key : Row) → spot_at self.old.directory table key ≡ Some spot → OnOk result (row_pages self.new.directory ≡ row_pages self.old.directory) }
        ensures places { OnOk result ((table : ℕ) (key : Row) → place_at self.new.directory table key ≡ place_at self.old.directory table key) }
        ensures same { D.tells_content → IfOk result (λ done. done ≡ false → SameBook (book_of (D.told disk.old) pages.old) (book_of (D.told disk.new) pages.new)) }
        ensures kept { IfOk result (λ done. done ≡ false → self.new ≡ self.old) }
        ensures room { D.tells_content → (owners : Owners) (free : List ℕ) (defs : Defs) (rows : RowMap) → IsHeld self.old.directory (book_of (D.told disk.old) pages.old) owners free defs rows → (table : ℕ) (key before : Row) → spot_at self.old.directory table key ≡ Some spot → rows table key ≡ Some before
            → IfOk result (λ done. IsTrue done ↔ ((entry : RowPage) → page_at self.old.directory spot.page ≡ Some entry → entry.used + size_of cell ≤ 4080 + size_of (row_cell table before))) }
        ensures head { SameHead pages.old pages.new }
        ensures goes { D.tells_content → Goes (D.told disk.old) (D.told disk.new) pages.old pages.new }
        ensures keeps { D.tells_content → OnOk result (Keeps (D.told disk.old) (D.told disk.new) pages.new) }
        ensures undamaged { D.tells_content → (saved : Checkpoint) → IsSafe saved (D.told disk.old) → saved.count ≡ stored_of pages.old
            → (owners : Owners) (free : List ℕ) (defs : Defs) (rows : RowMap) → IsHeld self.old.directory (book_of (D.told disk.old) pages.old) owners free defs rows → (table : ℕ) (key : Row) → spot_at self.old.directory table key ≡ Some spot → IfErr result (λ refusal. IfDamaged refusal (λ file at. ⊥)) }
        ensures limited { IfErr result (λ refusal. IfPageLimit refusal (λ count limit. ⊥)) }
        ensures cause { HasCause (D.told disk.old).faults (D.told disk.new).faults (result ≡ Err PageRefusal.DiskFault) }
    {
        match in_use(pages, spot.page) {
            Ok(()) => {}
            Err(refusal) => return Err(refusal),
        }
        let used = match rewrite(
            self.alloc,
            pages,
            disk,
            spot.page,
            Edit::Set(spot.cell, cell),
        ) {
            Ok(Some(used)) => used,
            Ok(None) => return Ok(false),
            Err(refusal) => return Err(refusal),
        };
        match self.directory.resize(spot.page, used) {
            Ok(()) => Ok(true),
            Err(_) => Err(PageRefusal::Memory),
        }
    }

    /// Takes a row off its page, where others stand too.
    fn take_off<D: Disk>(
        &mut self,
        pages: &mut Pages,
        disk: &mut D,
        spot: Spot,
        table: u32,
        key: &Key,
    ) -> Result<(), PageRefusal>
        requires known { D.tells_content → IsPagesOf (D.told disk.old) pages.old }

        ensures taken { D.tells_content → (owners : Owners) (free : List ℕ) (defs : Defs) (rows : RowMap) → IsHeld self.old.directory (book_of (D.told disk.old) pages.old) owners free defs rows → (after : RowMap) → spot_at self.old.directory table key.now ≡ Some spot → Sets rows table key.now None after → OnOk result (Worked of_rows (book_of (D.told disk.old) pages.old) owners (book_of (D.told disk.new) pages.new) (λ mine. Holds self.new.directory mine defs after)) }
        ensures pages { D.tells_content → (owners : Owners) (free : List ℕ) (defs : Defs) (rows : RowMap) → IsHeld self.old.directory (book_of (D.told disk.old) pages.old) owners free defs rows → spot_at self.old.directory table key.now ≡ Some spot → OnOk result (row_pages self.new.directory ≡ row_pages self.old.directory) }
        ensures place { OnOk result (place_at self.new.directory table key.now ≡ None) }
        ensures left { D.tells_content → (owners : Owners) (free : List ℕ) (defs : Defs) (rows : RowMap) → IsHeld self.old.directory (book_of (D.told disk.old) pages.old) owners free defs rows → (before : Row) → spot_at self.old.directory table key.now ≡ Some spot → rows table key.now ≡ Some before
            → OnOk result (LessUsed spot.page (size_of (row_cell table before)) self.old.directory self.new.directory) }
        ensures head { SameHead pages.old pages.new }
        ensures goes { D.tells_content → Goes (D.told disk.old) (D.told disk.new) pages.old pages.new }
        ensures keeps { D.tells_content → OnOk result (Keeps (D.told disk.old) (D.told disk.new) pages.new) }
        ensures undamaged { D.tells_content → (saved : Checkpoint) → IsSafe saved (D.told disk.old) → saved.count ≡ stored_of pages.old
            → (owners : Owners) (free : List ℕ) (defs : Defs) (rows : RowMap) → IsHeld self.old.directory (book_of (D.told disk.old) pages.old) owners free defs rows → spot_at self.old.directory table key.now ≡ Some spot → IfErr result (λ refusal. IfDamaged refusal (λ file at. ⊥)) }
        ensures limited { IfErr result (λ refusal. IfPageLimit refusal (λ count limit. ⊥)) }
        ensures cause { HasCause (D.told disk.old).faults (D.told disk.new).faults (result ≡ Err PageRefusal.DiskFault) }
    {
        match in_use(pages, spot.page) {
            Ok(()) => {}
            Err(refusal) => return Err(refusal),
        }
        let used = match rewrite(self.alloc, pages, disk, spot.page, Edit::Remove(spot.cell)) {
            Ok(Some(used)) => used,
            Ok(None) => return Err(damaged(spot.page)),
            Err(refusal) => return Err(refusal),
        };
        match self.directory.take_off(spot, used, table, key) {
            Ok(()) => Ok(()),
            Err(_) => Err(PageRefusal::Memory),
        }
    }

    /// Frees the page of a row that stands alone on it.
    fn free<D: Disk>(
        &mut self,
        pages: &mut Pages,
        disk: &mut D,
        spot: Spot,
        table: u32,
        key: &Key,
    ) -> Result<(), PageRefusal>
        requires known { D.tells_content → IsPagesOf (D.told disk.old) pages.old }

        ensures taken { D.tells_content → (owners : Owners) (free : List ℕ) (defs : Defs) (rows : RowMap) → IsHeld self.old.directory (book_of (D.told disk.old) pages.old) owners free defs rows → (after : RowMap) → spot_at self.old.directory table key.now ≡ Some spot → length (names_in (page_at self.old.directory spot.page)) ≡ 1 → Sets rows table key.now None after → OnOk result (Worked of_rows (book_of (D.told disk.old) pages.old) owners (book_of (D.told disk.new) pages.new) (λ mine. Holds self.new.directory mine defs after)) }
        ensures pages { IsSome (page_at self.old.directory spot.page) → OnOk result (row_pages self.new.directory + 1 ≡ row_pages self.old.directory) }
        ensures unknown { OnOk result (page_at self.new.directory spot.page ≡ None) }
        ensures goes { D.tells_content → Goes (D.told disk.old) (D.told disk.new) pages.old pages.new }
        ensures keeps { D.tells_content → OnOk result (Keeps (D.told disk.old) (D.told disk.new) pages.new) }
        ensures undamaged { D.tells_content → (saved : Checkpoint) → IsSafe saved (D.told disk.old) → saved.count ≡ stored_of pages.old
            → (owners : Owners) (free : List ℕ) (defs : Defs) (rows : RowMap) → IsHeld self.old.directory (book_of (D.told disk.old) pages.old) owners free defs rows → spot_at self.old.directory table key.now ≡ Some spot → IfErr result (λ refusal. IfDamaged refusal (λ file at. ⊥)) }
        ensures limited { IfErr result (λ refusal. IfPageLimit refusal (λ count limit. ⊥)) }
        ensures cause { HasCause (D.told disk.old).faults (D.told disk.new).faults (result ≡ Err PageRefusal.DiskFault) }
    {
        match in_use(pages, spot.page) {
            Ok(()) => {}
            Err(refusal) => return Err(refusal),
        }
        match pages.free_page(disk, spot.page) {
            Ok(()) => {}
            Err(refusal) => return Err(refusal),
        }
        match self.directory.forget(spot.page, table, key) {
            Ok(()) => Ok(()),
            Err(_) => Err(PageRefusal::Memory),
        }
    }

    /// Puts a row that has no room on its page where a new one would go.
    fn place_anew<D: Disk>(
        &mut self,
        pages: &mut Pages,
        disk: &mut D,
        spot: Spot,
        name: RowName,
        cell: Cell,
        within: Within,
    ) -> Result<(), PageRefusal>
        requires known { D.tells_content → IsPagesOf (D.told disk.old) pages.old }
        requires short { length cell ≤ 3504 }

        ensures put { D.tells_content → (owners : Owners) (free : List ℕ) (defs : Defs) (rows : RowMap) → IsHeld self.old.directory (book_of (D.told disk.old) pages.old) owners free defs rows → (after : RowMap) (row : Row) → IsRowOf defs (record { name = name; row = row }) → cell ≡ row_cell name.table row
            → spot_at self.old.directory name.table name.key ≡ Some spot → Sets rows name.table name.key (Some row) after → OnOk result (Worked of_rows (book_of (D.told disk.old) pages.old) owners (book_of (D.told disk.new) pages.new) (λ mine. Holds self.new.directory mine defs after)) }
        ensures taken { D.tells_content → (owners : Owners) (free : List ℕ) (defs : Defs) (rows : RowMap) → IsHeld self.old.directory (book_of (D.told disk.old) pages.old) owners free defs rows → spot_at self.old.directory name.table name.key ≡ Some spot
            → OnOk result ((row_pages self.new.directory ≡ row_pages self.old.directory) ⊎ (NoRoomFor self.old.directory rows name.table name.key (size_of cell) × (row_pages self.new.directory ≡ row_pages self.old.directory + 1))) }
        ensures needed { D.tells_content → (owners : Owners) (free : List ℕ) (defs : Defs) (rows : RowMap) → IsHeld self.old.directory (book_of (D.told disk.old) pages.old) owners free defs rows → spot_at self.old.directory name.table name.key ≡ Some spot
            → NoRoomFor self.old.directory rows name.table name.key (size_of cell) → OnOk result (row_pages self.new.directory ≡ row_pages self.old.directory + 1) }
        ensures least { D.tells_content → (owners : Owners) (free : List ℕ) (defs : Defs) (rows : RowMap) → IsHeld self.old.directory (book_of (D.told disk.old) pages.old) owners free defs rows → spot_at self.old.directory name.table name.key ≡ Some spot → (HasOwnRoom self.old.directory rows name.table name.key (size_of cell) spot.page → ⊥)
            → (page : ℕ) → IsLeastRoom self.old.directory (size_of cell) page → OnOk result (place_at self.new.directory name.table name.key ≡ Some page) }
        ensures crowded { D.tells_content → (owners : Owners) (free : List ℕ) (defs : Defs) (rows : RowMap) → IsHeld self.old.directory (book_of (D.told disk.old) pages.old) owners free defs rows → spot_at self.old.directory name.table name.key ≡ Some spot → IfErr result (λ refusal. IfPageLimit refusal (λ count limit. NoRoomFor self.old.directory rows name.table name.key (size_of cell))) }
        ensures goes { D.tells_content → Goes (D.told disk.old) (D.told disk.new) pages.old pages.new }
        ensures keeps { D.tells_content → OnOk result (Keeps (D.told disk.old) (D.told disk.new) pages.new) }
        ensures undamaged { D.tells_content → (saved : Checkpoint) → IsSafe saved (D.told disk.old) → saved.count ≡ stored_of pages.old
            → (owners : Owners) (free : List ℕ) (defs : Defs) (rows : RowMap) → IsHeld self.old.directory (book_of (D.told disk.old) pages.old) owners free defs rows → spot_at self.old.directory name.table name.key ≡ Some spot → IfErr result (λ refusal. IfDamaged refusal (λ file at. ⊥)) }
        ensures limited { IfErr result (λ refusal. IfPageLimit refusal (λ count limit. (first_free_of pages.old ≡ 0) × (count ≡ count_of pages.old) × (limit ≡ bound_of within pages.old) × (limit ≤ count))) }
        ensures cause { HasCause (D.told disk.old).faults (D.told disk.new).faults (result ≡ Err PageRefusal.DiskFault) }
    {
        match self.take_off(pages, disk, spot, name.table, &name.key) {
            Ok(()) => {}
            Err(refusal) => return Err(refusal),
        }
        self.put_new(pages, disk, name, cell, within)
    }

    /// Puts a row: a new one, or one in the place of that with its name.
    fn put_cell<D: Disk>(
        &mut self,
        pages: &mut Pages,
        disk: &mut D,
        name: RowName,
        cell: Cell,
        within: Within,
    ) -> Result<(), PageRefusal>
        requires known { D.tells_content → IsPagesOf (D.told disk.old) pages.old }
        requires short { length cell ≤ 3504 }

        ensures put { D.tells_content → (owners : Owners) (free : List ℕ) (defs : Defs) (rows : RowMap) → IsHeld self.old.directory (book_of (D.told disk.old) pages.old) owners free defs rows → (after : RowMap) (row : Row) → IsRowOf defs (record { name = name; row = row }) → cell ≡ row_cell name.table row → Sets rows name.table name.key (Some row) after → OnOk result (Worked of_rows (book_of (D.told disk.old) pages.old) owners (book_of (D.told disk.new) pages.new) (λ mine. Holds self.new.directory mine defs after)) }
        ensures taken { D.tells_content → (owners : Owners) (free : List ℕ) (defs : Defs) (rows : RowMap) → IsHeld self.old.directory (book_of (D.told disk.old) pages.old) owners free defs rows
            → OnOk result ((row_pages self.new.directory ≡ row_pages self.old.directory) ⊎ (NoRoomFor self.old.directory rows name.table name.key (size_of cell) × (row_pages self.new.directory ≡ row_pages self.old.directory + 1))) }
        ensures needed { D.tells_content → (owners : Owners) (free : List ℕ) (defs : Defs) (rows : RowMap) → IsHeld self.old.directory (book_of (D.told disk.old) pages.old) owners free defs rows → NoRoomFor self.old.directory rows name.table name.key (size_of cell) → OnOk result (row_pages self.new.directory ≡ row_pages self.old.directory + 1) }
        ensures least { D.tells_content → (owners : Owners) (free : List ℕ) (defs : Defs) (rows : RowMap) → IsHeld self.old.directory (book_of (D.told disk.old) pages.old) owners free defs rows → (page : ℕ) → IsChosen self.old.directory rows name.table name.key (size_of cell) page → OnOk result (place_at self.new.directory name.table name.key ≡ Some page) }
        ensures crowded { D.tells_content → (owners : Owners) (free : List ℕ) (defs : Defs) (rows : RowMap) → IsHeld self.old.directory (book_of (D.told disk.old) pages.old) owners free defs rows → IfErr result (λ refusal. IfPageLimit refusal (λ count limit. NoRoomFor self.old.directory rows name.table name.key (size_of cell))) }
        ensures goes { D.tells_content → Goes (D.told disk.old) (D.told disk.new) pages.old pages.new }
        ensures keeps { D.tells_content → OnOk result (Keeps (D.told disk.old) (D.told disk.new) pages.new) }
        ensures undamaged { D.tells_content → (saved : Checkpoint) → IsSafe saved (D.told disk.old) → saved.count ≡ stored_of pages.old
            → (owners : Owners) (free : List ℕ) (defs : Defs) (rows : RowMap) → IsHeld self.old.directory (book_of (D.told disk.old) pages.old) owners free defs rows → IfErr result (λ refusal. IfDamaged refusal (λ file at. ⊥)) }
        ensures limited { IfErr result (λ refusal. IfPageLimit refusal (λ count limit. (first_free_of pages.old ≡ 0) × (count ≡ count_of pages.old) × (limit ≡ bound_of within pages.old) × (limit ≤ count))) }
        ensures cause { HasCause (D.told disk.old).faults (D.told disk.new).faults (result ≡ Err PageRefusal.DiskFault) }
    {
        let Some(spot) = self.directory.spot(name.table, &name.key) else {
            return self.put_new(pages, disk, name, cell, within);
        };
        let again = match cell.copy(self.alloc) {
            Ok(again) => again,
            Err(_) => return Err(PageRefusal::Memory),
        };
        match self.replace(pages, disk, spot, again) {
            Ok(true) => return Ok(()),
            Ok(false) => {}
            Err(refusal) => return Err(refusal),
        }
        self.place_anew(pages, disk, spot, name, cell, within)
    }

    /// Puts a row under its key: a new one, or one in the place of that with its key. Its encoding has at most 3,500 bytes.
    ///
    /// A new row goes to the least row page with room, or else to a page that was free or new. A row that stands stays on its page
    /// while that has room for it, the room of the old row counted, and else goes where a new one would.
    pub fn put<D: Disk>(
        &mut self,
        pages: &mut Pages,
        disk: &mut D,
        table: u32,
        key: &Key,
        row: &Row,
        within: Within,
    ) -> Result<(), PageRefusal>
        requires known { D.tells_content → IsPagesOf (D.told disk.old) pages.old }
        requires short { length (row_bytes row.now) ≤ 3500 }

        ensures put { D.tells_content → (owners : Owners) (free : List ℕ) (defs : Defs) (rows : RowMap) → IsHeld self.old.directory (book_of (D.told disk.old) pages.old) owners free defs rows → (after : RowMap) → IsRowOf defs (record { name = record { table = table; key = key.now }; row = row.now }) → Sets rows table key.now (Some row.now) after → OnOk result (Worked of_rows (book_of (D.told disk.old) pages.old) owners (book_of (D.told disk.new) pages.new) (λ mine. Holds self.new.directory mine defs after)) }

        // A page is taken exactly where no row page has room, the room of the row's own old cell counted.
        ensures taken { D.tells_content → (owners : Owners) (free : List ℕ) (defs : Defs) (rows : RowMap) → IsHeld self.old.directory (book_of (D.told disk.old) pages.old) owners free defs rows
            → OnOk result ((row_pages self.new.directory ≡ row_pages self.old.directory) ⊎ (NoRoomFor self.old.directory rows table key.now (6 + length (row_bytes row.now)) × (row_pages self.new.directory ≡ row_pages self.old.directory + 1))) }
        ensures needed { D.tells_content → (owners : Owners) (free : List ℕ) (defs : Defs) (rows : RowMap) → IsHeld self.old.directory (book_of (D.told disk.old) pages.old) owners free defs rows → NoRoomFor self.old.directory rows table key.now (6 + length (row_bytes row.now)) → OnOk result (row_pages self.new.directory ≡ row_pages self.old.directory + 1) }

        // Where a page is taken, every row page that stood has more than 500 bytes of cells.
        ensures filled { D.tells_content → (owners : Owners) (free : List ℕ) (defs : Defs) (rows : RowMap) → IsHeld self.old.directory (book_of (D.told disk.old) pages.old) owners free defs rows
            → OnOk result ((row_pages self.new.directory ≡ row_pages self.old.directory) ⊎ ((page : ℕ) (entry : RowPage) → page_at self.old.directory page ≡ Some entry → 500 < entry.used)) }

        // So the bytes of cells bound how many row pages there are when one is taken, or is wanted and refused.
        ensures counted { D.tells_content → (owners : Owners) (free : List ℕ) (defs : Defs) (rows : RowMap) → IsHeld self.old.directory (book_of (D.told disk.old) pages.old) owners free defs rows → OnOk result ((row_pages self.new.directory ≡ row_pages self.old.directory) ⊎ (501 * row_pages self.old.directory ≤ used_bytes self.old.directory)) }
        ensures counted_at_limit { D.tells_content → (owners : Owners) (free : List ℕ) (defs : Defs) (rows : RowMap) → IsHeld self.old.directory (book_of (D.told disk.old) pages.old) owners free defs rows → IfErr result (λ refusal. IfPageLimit refusal (λ count limit. 501 * row_pages self.old.directory ≤ used_bytes self.old.directory)) }

        // It is put onto its own page where that has room, and else onto the least with room.
        ensures least { D.tells_content → (owners : Owners) (free : List ℕ) (defs : Defs) (rows : RowMap) → IsHeld self.old.directory (book_of (D.told disk.old) pages.old) owners free defs rows → (page : ℕ) → IsChosen self.old.directory rows table key.now (6 + length (row_bytes row.now)) page → OnOk result (place_at self.new.directory table key.now ≡ Some page) }

        // `PageLimit` comes only where a page is to be taken, none is free, and the count has reached the bound.
        ensures crowded { D.tells_content → (owners : Owners) (free : List ℕ) (defs : Defs) (rows : RowMap) → IsHeld self.old.directory (book_of (D.told disk.old) pages.old) owners free defs rows → IfErr result (λ refusal. IfPageLimit refusal (λ count limit. NoRoomFor self.old.directory rows table key.now (6 + length (row_bytes row.now)))) }
        ensures limited { IfErr result (λ refusal. IfPageLimit refusal (λ count limit. (count ≡ count_of pages.old) × (limit ≡ bound_of within pages.old) × (limit ≤ count) × (first_free_of pages.old ≡ 0))) }
        ensures goes { D.tells_content → Goes (D.told disk.old) (D.told disk.new) pages.old pages.new }
        ensures keeps { D.tells_content → OnOk result (Keeps (D.told disk.old) (D.told disk.new) pages.new) }
        ensures undamaged { D.tells_content → (saved : Checkpoint) → IsSafe saved (D.told disk.old) → saved.count ≡ stored_of pages.old
            → (owners : Owners) (free : List ℕ) (defs : Defs) (rows : RowMap) → IsHeld self.old.directory (book_of (D.told disk.old) pages.old) owners free defs rows → IfErr result (λ refusal. IfDamaged refusal (λ file at. ⊥)) }
        ensures cause { HasCause (D.told disk.old).faults (D.told disk.new).faults (result ≡ Err PageRefusal.DiskFault) }
    {
        self.directory.pages_law();
        let cell = match row_cell(self.alloc, table, row) {
            Ok(cell) => cell,
            Err(_) => return Err(PageRefusal::Memory),
        };
        let key = match key.copy(self.alloc) {
            Ok(key) => key,
            Err(_) => return Err(PageRefusal::Memory),
        };
        self.put_cell(pages, disk, RowName { table, key }, cell, within)
    }

    /// Takes the row with this name off its page. A page without rows is freed. Where no such row stands, nothing is changed.
    pub fn remove<D: Disk>(
        &mut self,
        pages: &mut Pages,
        disk: &mut D,
        table: u32,
        key: &Key,
    ) -> Result<(), PageRefusal>
        requires known { D.tells_content → IsPagesOf (D.told disk.old) pages.old }

        ensures removed { D.tells_content → (owners : Owners) (free : List ℕ) (defs : Defs) (rows : RowMap) → IsHeld self.old.directory (book_of (D.told disk.old) pages.old) owners free defs rows → (after : RowMap) → Sets rows table key.now None after → OnOk result (Worked of_rows (book_of (D.told disk.old) pages.old) owners (book_of (D.told disk.new) pages.new) (λ mine. Holds self.new.directory mine defs after)) }

        // A page whose only row went is a row page no more, and otherwise all row pages stay.
        ensures freed { D.tells_content → (owners : Owners) (free : List ℕ) (defs : Defs) (rows : RowMap) → IsHeld self.old.directory (book_of (D.told disk.old) pages.old) owners free defs rows
            → (spot : Place) → spot_at self.old.directory table key.now ≡ Some spot → length (names_in (page_at self.old.directory spot.page)) ≡ 1 → OnOk result ((row_pages self.new.directory + 1 ≡ row_pages self.old.directory) × (page_at self.new.directory spot.page ≡ None)) }
        ensures stay { D.tells_content → (owners : Owners) (free : List ℕ) (defs : Defs) (rows : RowMap) → IsHeld self.old.directory (book_of (D.told disk.old) pages.old) owners free defs rows
            → (spot : Place) → spot_at self.old.directory table key.now ≡ Some spot → length (names_in (page_at self.old.directory spot.page)) ≢ 1 → OnOk result (row_pages self.new.directory ≡ row_pages self.old.directory) }
        ensures unchanged { spot_at self.old.directory table key.now ≡ None → self.new ≡ self.old }
        ensures goes { D.tells_content → Goes (D.told disk.old) (D.told disk.new) pages.old pages.new }
        ensures keeps { D.tells_content → OnOk result (Keeps (D.told disk.old) (D.told disk.new) pages.new) }
        ensures undamaged { D.tells_content → (saved : Checkpoint) → IsSafe saved (D.told disk.old) → saved.count ≡ stored_of pages.old
            → (owners : Owners) (free : List ℕ) (defs : Defs) (rows : RowMap) → IsHeld self.old.directory (book_of (D.told disk.old) pages.old) owners free defs rows → IfErr result (λ refusal. IfDamaged refusal (λ file at. ⊥)) }
        ensures limited { IfErr result (λ refusal. IfPageLimit refusal (λ count limit. ⊥)) }
        ensures cause { HasCause (D.told disk.old).faults (D.told disk.new).faults (result ≡ Err PageRefusal.DiskFault) }
    {
        let Some(spot) = self.directory.spot(table, key) else {
            return Ok(());
        };
        if self.directory.is_alone(spot.page) {
            return self.free(pages, disk, spot, table, key);
        }
        self.take_off(pages, disk, spot, table, key)
    }

    /// The row with this name, if it stands.
    pub fn get<D: Disk>(
        &self,
        pages: &mut Pages,
        disk: &mut D,
        table: u32,
        key: &Key,
    ) -> Result<Option<Row>, PageRefusal>
        requires known { D.tells_content → IsPagesOf (D.told disk.old) pages.old }

        ensures row { D.tells_content → (owners : Owners) (free : List ℕ) (defs : Defs) (rows : RowMap) → IsHeld self.now.directory (book_of (D.told disk.old) pages.old) owners free defs rows → IfOk result (λ row. row ≡ rows table key.now) }
        ensures readable { D.tells_content → (owners : Owners) (free : List ℕ) (defs : Defs) (rows : RowMap) → IsHeld self.now.directory (book_of (D.told disk.old) pages.old) owners free defs rows → IfErr result (λ refusal. IfDamaged refusal (λ file at. ⊥)) }

        // All pages are as before.
        ensures same { D.tells_content → OnOk result (SameBook (book_of (D.told disk.old) pages.old) (book_of (D.told disk.new) pages.new)) }
        ensures head { SameHead pages.old pages.new }
        ensures goes { D.tells_content → Goes (D.told disk.old) (D.told disk.new) pages.old pages.new }
        ensures keeps { D.tells_content → OnOk result (Keeps (D.told disk.old) (D.told disk.new) pages.new) }
        ensures undamaged { D.tells_content → (saved : Checkpoint) → IsSafe saved (D.told disk.old) → saved.count ≡ stored_of pages.old
            → (owners : Owners) (free : List ℕ) (defs : Defs) (rows : RowMap) → IsHeld self.now.directory (book_of (D.told disk.old) pages.old) owners free defs rows → IfErr result (λ refusal. IfDamaged refusal (λ file at. ⊥)) }
        ensures limited { IfErr result (λ refusal. IfPageLimit refusal (λ count limit. ⊥)) }
        ensures cause { HasCause (D.told disk.old).faults (D.told disk.new).faults (result ≡ Err PageRefusal.DiskFault) }
    {
        let Some(place) = self.directory.spot(table, key) else {
            return Ok(None);
        };
        match in_use(pages, place.page) {
            Ok(()) => {}
            Err(refusal) => return Err(refusal),
        }
        let cells = match read_cells(self.alloc, pages, disk, place.page) {
            Ok(cells) => cells,
            Err(refusal) => return Err(refusal),
        };
        match row_of(self.alloc, cells.as_slice(), place.cell) {
            Ok(Some(row)) => Ok(Some(row)),
            Ok(None) => Err(damaged(place.page)),
            Err(_) => Err(PageRefusal::Memory),
        }
    }

    /// Takes over the rows of a page, at opening, which hands in all row pages, each once. `Damaged` tells the page, and comes exactly
    /// where it is no row page, or has a cell with no row of a table that stands, whose values fit, or a row under a key that stands
    /// already.
    pub fn take_page<D: Disk>(
        &mut self,
        pages: &mut Pages,
        disk: &mut D,
        page: u32,
        defs: &TableDefs,
    ) -> Result<(), PageRefusal>
        requires known { D.tells_content → IsPagesOf (D.told disk.old) pages.old }
        requires not_header { 1 ≤ page }
        requires page { page < count_of pages.old }

        ensures taken { D.tells_content → (taken : Section) (rows : RowMap) → Holds self.old.directory taken (def_in defs.now) rows → taken page ≡ None
            → OnOk result (Takes (def_in defs.now) (page_in (D.told disk.old) pages.old page) page taken rows self.new.directory) }
        ensures damaged { D.tells_content → (taken : Section) (rows : RowMap) → Holds self.old.directory taken (def_in defs.now) rows → taken page ≡ None
            → IfErr result (λ refusal. IfDamaged refusal (λ file at. (file ≡ 0) × (at ≡ 4096 * page) × ((after : RowMap) → IsRowPage (def_in defs.now) (page_in (D.told disk.old) pages.old page) rows after → ⊥))) }
        ensures pages { D.tells_content → (taken : Section) (rows : RowMap) → Holds self.old.directory taken (def_in defs.now) rows → taken page ≡ None → OnOk result (row_pages self.new.directory ≡ row_pages self.old.directory + 1) }

        // All pages are as before.
        ensures same { D.tells_content → OnOk result (SameBook (book_of (D.told disk.old) pages.old) (book_of (D.told disk.new) pages.new)) }
        ensures head { SameHead pages.old pages.new }
        ensures goes { D.tells_content → Goes (D.told disk.old) (D.told disk.new) pages.old pages.new }
        ensures keeps { D.tells_content → OnOk result (Keeps (D.told disk.old) (D.told disk.new) pages.new) }
        ensures limited { IfErr result (λ refusal. IfPageLimit refusal (λ count limit. ⊥)) }
        ensures cause { HasCause (D.told disk.old).faults (D.told disk.new).faults (result ≡ Err PageRefusal.DiskFault) }
    {
        match in_use(pages, page) {
            Ok(()) => {}
            Err(refusal) => return Err(refusal),
        }
        let cells = match read_cells(self.alloc, pages, disk, page) {
            Ok(cells) => cells,
            Err(refusal) => return Err(refusal),
        };
        match take_rows(
            self.alloc,
            &mut self.directory,
            page,
            cells.as_slice(),
            defs.as_slice(),
        ) {
            Ok(true) => Ok(()),
            Ok(false) => Err(damaged(page)),
            Err(_) => Err(PageRefusal::Memory),
        }
    }

    /// The primary keys of a table's rows, ascending.
    pub fn keys(&self, table: u32) -> Result<Keys, NoMemory>
        ensures order { IfOk result (λ keys. rising key_cmp keys ≡ true) }
        ensures all { (pages : Section) (defs : Defs) (rows : RowMap) → Holds self.now.directory pages defs rows → IfOk result (λ keys. (key : Row) → Has key keys ↔ IsSome (rows table key)) }
    {
        self.directory.keys(table)
    }
}

// The rows of a page are taken over at opening.
ghost use Rattle.std.specs.Prelude.{◌≡◌, ◌+◌, ◌<◌, ◌≤◌, ◌==◌, ℕ, None, false, length, IfOk, IsSome, IsTrue};
ghost use Rattle.std.specs.List.{find};
ghost use Rattle.std.specs.Option.{option_copied};
ghost use Rattle.wat_slot.specs.Cells.{cells_bytes};
ghost use Rattle.wat_book.specs.Book.{Section};
ghost use Rattle.wat_rows.specs.Rows.{RowMap};
ghost use Rattle.wat_directory.specs.Known.{Holds, page_at, row_pages};
ghost use Rattle.wat_heap.specs.Taking.{def_in, IsRowList, NoRow, TakesList, TakesRow};

use std::alloc::Global;
use wat_directory::Directory;
use wat_list::NoMemory;
use wat_rows::{RowName, row_in_cell};
use wat_slot::Cell;
use wat_value::{TableDef, fits};

/// The definition of the table with this number.
fn def_of(defs: &[TableDef], table: u32) -> Option<&TableDef>
    ensures found { option_copied result ≡ find (λ def. table == def.number) defs.now }
    ensures number { table < 4294967296 }
{
    for def in defs {
        if def.number == table {
            return Some(def);
        }
    }
    None
}

/// Takes over the row in a cell, behind the rows that the page has so far. It is `false` where the bytes are no row's, its table doesn't
/// stand, its values don't fit, or a row with its key stands already.
fn take_row(
    alloc: Global,
    directory: &mut Directory,
    page: u32,
    used: u32,
    cell: &[u8],
    defs: &[TableDef],
) -> Result<bool, NoMemory>
    requires page { page < 4294967295 }
    requires used { used + 2 + length cell.now ≤ 4080 }

    ensures taken { IfOk result (λ done. IsTrue done → TakesRow (def_in defs.now) page (used + 2 + length cell.now) cell.now directory.old directory.new) }
    ensures broken { IfOk result (λ done. done ≡ false → NoRow (def_in defs.now) cell.now directory.old) }
    ensures count { IfOk result (λ done. IsSome (page_at directory.old page) → row_pages directory.new ≡ row_pages directory.old) }
{
    let Some((table, row)) = row_in_cell(alloc, cell)? else {
        return Ok(false);
    };
    let Some(def) = def_of(defs, table) else {
        return Ok(false);
    };
    if !fits(def, &row) {
        return Ok(false);
    }
    let key = def.key_of(alloc, &row)?;
    if directory.has(table, &key) {
        return Ok(false);
    }
    directory.add(page, used + 2 + cell.len() as u32, RowName { table, key })?;
    Ok(true)
}

/// Takes over the rows in the cells of a page that was none before. It is `false` where they are no rows that may stand beside the others.
pub fn take_rows(
    alloc: Global,
    directory: &mut Directory,
    page: u32,
    cells: &[Cell],
    defs: &[TableDef],
) -> Result<bool, NoMemory>
    requires page { page < 4294967295 }
    requires fit { length (cells_bytes cells.now) ≤ 4080 }

    ensures taken { (pages : Section) (rows : RowMap) → Holds directory.old pages (def_in defs.now) rows → pages page ≡ None
        → IfOk result (λ done. IsTrue done → TakesList (def_in defs.now) page cells.now pages rows directory.new) }
    ensures broken { (pages : Section) (rows : RowMap) → Holds directory.old pages (def_in defs.now) rows → pages page ≡ None
        → IfOk result (λ done. done ≡ false → (after : RowMap) → IsRowList (def_in defs.now) cells.now rows after → ⊥) }
    ensures count { page_at directory.old page ≡ None → IfOk result (λ done. row_pages directory.new ≡ row_pages directory.old + 1) }
{
    directory.open(page)?;
    let mut used = 0;
    for cell in cells {
        if !take_row(alloc, directory, page, used, cell.as_slice(), defs)? {
            return Ok(false);
        }
        used += 2 + cell.len() as u32;
    }
    Ok(true)
}

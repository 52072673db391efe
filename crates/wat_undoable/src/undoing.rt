// Changes are undone one by one, on the rows as they are known.
ghost use Rattle.std.specs.Prelude.{◌≡◌, ◌≢◌, ◌⊎◌, ◌↔◌, ◌<◌, ℕ, List, None, Some, slice_get, IsTrue, IfOk, IfErr, OnOk, MatchBool};
ghost use Rattle.wat_list.specs.Has.{Has};
ghost use Rattle.wat_value.specs.Changes.{row_before};
ghost use Rattle.wat_faults.specs.Faults.{HasCause};
ghost use Rattle.wat_book.specs.Book.{Owners};
ghost use Rattle.wat_images.specs.Refusal.{IfDamaged, IfPageLimit};
ghost use Rattle.wat_pages.specs.Pages.{IsPagesOf, book_of};
ghost use Rattle.wat_schema.specs.Catalog.{def_at};
ghost use Rattle.wat_schema.specs.Tables.{Tables, IsTables, apply_change, catalog_of, inverse, row_at};
ghost use Rattle.wat_replay.specs.State.{Lists, undo};
ghost use Rattle.wat_rows.specs.Rows.{Row as AnyRow, RowMap, Defs};
ghost use Rattle.wat_heap.specs.Heaps.{IsHeld, directory_of};
ghost use Rattle.wat_undo.specs.Kept.{lists_of};
ghost use Rattle.wat_files.specs.Formed.{CanUndo, state_of};
ghost use Rattle.wat_roots.specs.Went.{Went, Stays};
ghost use Rattle.wat_undoable.specs.Undoing.{Tried, MayUndo, Undid, UndidAll, Clashes};

use crate::asked::{after, fits_change, inverse_of, is_before, key_of, table_of};
use crate::trial::{Trial, Undone};
use std::alloc::Global;
use wat_disk::Disk;
use wat_heap::Heap;
use wat_pages::{PageRefusal, Pages};
use wat_schema::Schema;
use wat_undo::Undo;
use wat_value::{Change, Key};

/// Whether it is the connection's own row, and as it is before the change.
fn is_own(undone: &Undone, conn: u16, change: &Change) -> bool
    ensures { IsTrue result ↔ ((undone.now.conn ≡ conn) × (undone.now.row ≡ row_before change.now)) }
{
    undone.conn == conn && is_before(&undone.row, change)
}

/// Whether the row stands on the pages as it is before the change.
fn stands_before<D: Disk>(
    heap: &Heap,
    pages: &mut Pages,
    disk: &mut D,
    table: u32,
    key: &Key,
    change: &Change,
) -> Result<bool, PageRefusal>
    requires known { D.tells_content → IsPagesOf (D.told disk.old) pages.old }

    ensures before { D.tells_content → (owners : Owners) (free : List ℕ) (defs : Defs) (rows : RowMap) → IsHeld (directory_of heap.now) (book_of (D.told disk.old) pages.old) owners free defs rows
        → IfOk result (λ before. IsTrue before ↔ (rows table key.now ≡ row_before change.now)) }
    ensures undamaged { D.tells_content → (owners : Owners) (free : List ℕ) (defs : Defs) (rows : RowMap) → IsHeld (directory_of heap.now) (book_of (D.told disk.old) pages.old) owners free defs rows → IfErr result (λ refusal. IfDamaged refusal (λ file at. ⊥)) }
    ensures limited { IfErr result (λ refusal. IfPageLimit refusal (λ count limit. ⊥)) }
    ensures went { D.tells_content → Went (D.told disk.old) (D.told disk.new) pages.old pages.new }
    ensures stays { D.tells_content → OnOk result (Stays (D.told disk.old) (D.told disk.new) pages.old pages.new) }
    ensures cause { HasCause (D.told disk.old).faults (D.told disk.new).faults (result ≡ Err PageRefusal.DiskFault) }
{
    match heap.get(pages, disk, table, key) {
        Ok(row) => Ok(is_before(&row, change)),
        Err(refusal) => Err(refusal),
    }
}

/// Whether the row stands as it is before the change, and no other connection has changed it.
fn may_undo<D: Disk>(
    trial: &Trial,
    heap: &Heap,
    pages: &mut Pages,
    disk: &mut D,
    conn: u16,
    table: u32,
    key: &Key,
    change: &Change,
) -> Result<bool, PageRefusal>
    requires known { D.tells_content → IsPagesOf (D.told disk.old) pages.old }

    ensures may { D.tells_content → (owners : Owners) (free : List ℕ) (defs : Defs) (rows : RowMap) → IsHeld (directory_of heap.now) (book_of (D.told disk.old) pages.old) owners free defs rows
        → IfOk result (λ may. IsTrue may ↔ MayUndo trial.now rows conn table key.now change.now) }
    ensures undamaged { D.tells_content → (owners : Owners) (free : List ℕ) (defs : Defs) (rows : RowMap) → IsHeld (directory_of heap.now) (book_of (D.told disk.old) pages.old) owners free defs rows → IfErr result (λ refusal. IfDamaged refusal (λ file at. ⊥)) }
    ensures limited { IfErr result (λ refusal. IfPageLimit refusal (λ count limit. ⊥)) }
    ensures went { D.tells_content → Went (D.told disk.old) (D.told disk.new) pages.old pages.new }
    ensures stays { D.tells_content → OnOk result (Stays (D.told disk.old) (D.told disk.new) pages.old pages.new) }
    ensures cause { HasCause (D.told disk.old).faults (D.told disk.new).faults (result ≡ Err PageRefusal.DiskFault) }
{
    let Some(undone) = trial.get(table, key) else {
        return stands_before(heap, pages, disk, table, key, change);
    };
    Ok(is_own(undone, conn, change))
}

/// Undoes a change of a connection, if that applies and no other connection has changed its row.
fn undo_change<D: Disk>(
    alloc: Global,
    trial: &mut Trial,
    heap: &Heap,
    pages: &mut Pages,
    disk: &mut D,
    schema: &Schema,
    conn: u16,
    change: &Change,
) -> Result<bool, PageRefusal>
    requires known { D.tells_content → IsPagesOf (D.told disk.old) pages.old }

    ensures undone { D.tells_content → (owners : Owners) (free : List ℕ) (rows : RowMap) (lists : Lists) (u : Tables) → IsHeld (directory_of heap.now) (book_of (D.told disk.old) pages.old) owners free (def_at schema.now) rows
        → Tried schema.now rows lists u trial.old → Has change.now (lists conn)
        → IfOk result (λ done. MatchBool done (Undid schema.now rows lists conn change.now u trial.old trial.new) ((apply_change (inverse change.now) u ≡ None) ⊎ Clashes schema.now lists)) }
    ensures undamaged { D.tells_content → (owners : Owners) (free : List ℕ) (rows : RowMap) → IsHeld (directory_of heap.now) (book_of (D.told disk.old) pages.old) owners free (def_at schema.now) rows → IfErr result (λ refusal. IfDamaged refusal (λ file at. ⊥)) }
    ensures limited { IfErr result (λ refusal. IfPageLimit refusal (λ count limit. ⊥)) }
    ensures went { D.tells_content → Went (D.told disk.old) (D.told disk.new) pages.old pages.new }
    ensures stays { D.tells_content → OnOk result (Stays (D.told disk.old) (D.told disk.new) pages.old pages.new) }
    ensures cause { HasCause (D.told disk.old).faults (D.told disk.new).faults (result ≡ Err PageRefusal.DiskFault) }
{
    let back = match inverse_of(alloc, change) {
        Ok(back) => back,
        Err(_) => return Err(PageRefusal::Memory),
    };
    let table = table_of(&back);
    let Some(def) = schema.def(table) else {
        return Ok(false);
    };
    match fits_change(alloc, def, &back) {
        Ok(true) => {}
        Ok(false) => return Ok(false),
        Err(_) => return Err(PageRefusal::Memory),
    }
    let key = match key_of(alloc, def, &back) {
        Ok(key) => key,
        Err(_) => return Err(PageRefusal::Memory),
    };
    match may_undo(trial, heap, pages, disk, conn, table, &key, &back) {
        Ok(true) => {}
        Ok(false) => return Ok(false),
        Err(refusal) => return Err(refusal),
    }
    let row = after(back);
    match trial.set(table, key, Undone { conn, row }) {
        Ok(()) => Ok(true),
        Err(_) => Err(PageRefusal::Memory),
    }
}

/// Undoes the changes of a connection, the last one first.
fn undo_list<D: Disk>(
    alloc: Global,
    trial: &mut Trial,
    heap: &Heap,
    pages: &mut Pages,
    disk: &mut D,
    schema: &Schema,
    lists: &Undo,
    conn: u16,
) -> Result<bool, PageRefusal>
    requires known { D.tells_content → IsPagesOf (D.told disk.old) pages.old }

    ensures undone { D.tells_content → (owners : Owners) (free : List ℕ) (rows : RowMap) (v : Tables) → IsHeld (directory_of heap.now) (book_of (D.told disk.old) pages.old) owners free (def_at schema.now) rows
        → Tried schema.now rows (lists_of lists.now) v trial.old
        → IfOk result (λ done. MatchBool done (UndidAll schema.now rows (lists_of lists.now) conn (lists_of lists.now conn) v trial.old trial.new) ((undo (lists_of lists.now conn) v ≡ None) ⊎ Clashes schema.now (lists_of lists.now))) }
    ensures undamaged { D.tells_content → (owners : Owners) (free : List ℕ) (rows : RowMap) → IsHeld (directory_of heap.now) (book_of (D.told disk.old) pages.old) owners free (def_at schema.now) rows → IfErr result (λ refusal. IfDamaged refusal (λ file at. ⊥)) }
    ensures limited { IfErr result (λ refusal. IfPageLimit refusal (λ count limit. ⊥)) }
    ensures went { D.tells_content → Went (D.told disk.old) (D.told disk.new) pages.old pages.new }
    ensures stays { D.tells_content → OnOk result (Stays (D.told disk.old) (D.told disk.new) pages.old pages.new) }
    ensures cause { HasCause (D.told disk.old).faults (D.told disk.new).faults (result ≡ Err PageRefusal.DiskFault) }
{
    let mut left = lists.count(conn);
    while left > 0 {
        let change = lists.change(conn, left - 1);
        match undo_change(alloc, trial, heap, pages, disk, schema, conn, change) {
            Ok(true) => {}
            Ok(false) => return Ok(false),
            Err(refusal) => return Err(refusal),
        }
        left -= 1;
    }
    Ok(true)
}

/// Whether no row is changed by two connections, and all changes can be undone: those of each connection in order of its
/// number, the last one first. It is tried on the rows that the changes are of, in memory; the pages stay as they are.
pub fn can_undo<D: Disk>(
    alloc: Global,
    heap: &Heap,
    pages: &mut Pages,
    disk: &mut D,
    schema: &Schema,
    lists: &Undo,
) -> Result<bool, PageRefusal>
    requires known { D.tells_content → IsPagesOf (D.told disk.old) pages.old }

    ensures can { D.tells_content → (owners : Owners) (free : List ℕ) (rows : RowMap) (t : Tables) → IsHeld (directory_of heap.now) (book_of (D.told disk.old) pages.old) owners free (def_at schema.now) rows
        → IsTables t → catalog_of t ≡ schema.now → ((table : ℕ) (key : AnyRow) → rows table key ≡ row_at t table key)
        → IfOk result (λ can. MatchBool can (CanUndo (state_of t (lists_of lists.now))) (CanUndo (state_of t (lists_of lists.now)) → ⊥)) }
    ensures undamaged { D.tells_content → (owners : Owners) (free : List ℕ) (rows : RowMap) → IsHeld (directory_of heap.now) (book_of (D.told disk.old) pages.old) owners free (def_at schema.now) rows → IfErr result (λ refusal. IfDamaged refusal (λ file at. ⊥)) }
    ensures limited { IfErr result (λ refusal. IfPageLimit refusal (λ count limit. ⊥)) }

    // All pages are as before, and a stop leaves the last checkpoint.
    ensures went { D.tells_content → Went (D.told disk.old) (D.told disk.new) pages.old pages.new }
    ensures stays { D.tells_content → OnOk result (Stays (D.told disk.old) (D.told disk.new) pages.old pages.new) }

    ensures cause { HasCause (D.told disk.old).faults (D.told disk.new).faults (result ≡ Err PageRefusal.DiskFault) }
{
    let mut trial = Trial::new(alloc);
    let mut from = 0;
    while let Some(conn) = lists.next_open(from) {
        match undo_list(alloc, &mut trial, heap, pages, disk, schema, lists, conn) {
            Ok(true) => {}
            Ok(false) => return Ok(false),
            Err(refusal) => return Err(refusal),
        }
        from = u32::from(conn) + 1;
    }
    Ok(true)
}

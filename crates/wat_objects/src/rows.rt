// Rows are looked up, and changed.
ghost use Rattle.std.specs.Prelude.{◌≡◌, ◌≢◌, ◌↔◌, ◌<◌, ◌≤◌, ◌+◌, ℕ, List, true, Some, None, Err, length, IsSome, IsTrue, IfOk, IfErr, OnOk};
ghost use Rattle.wat_list.specs.Has.{Has};
ghost use Rattle.wat_list.specs.Rising.{rising};
ghost use Rattle.wat_faults.specs.Faults.{HasCause};
ghost use Rattle.wat_restore.specs.Restored.{Checkpoint};
ghost use Rattle.wat_restore.specs.Safe.{IsSafe};
ghost use Rattle.wat_book.specs.Book.{Book};
ghost use Rattle.wat_images.specs.Refusal.{IfDamaged, IfPageLimit};
ghost use Rattle.wat_pages.specs.Pages.{count_of, stored_of, first_free_of, book_of, IsPagesOf};
ghost use Rattle.wat_pages.specs.Within.{bound_of};
ghost use Rattle.wat_value.specs.Encoding.{row_bytes, IsEncodable};
ghost use Rattle.wat_value.specs.declared.definition.TableDef.{TableDef as AnyDef};
ghost use Rattle.wat_value.specs.Fits.{fits, key_of};
ghost use Rattle.wat_value.specs.Order.{key_cmp};
ghost use Rattle.wat_rows.specs.Rows.{Row as AnyRow, Sets};
ghost use Rattle.wat_schema.specs.Catalog.{def_at};
ghost use Rattle.wat_schema.specs.Tables.{IsTables, Tables, apply_change, catalog_of, row_at};
ghost use Rattle.wat_replay.specs.State.{State};
ghost use Rattle.wat_cells.specs.Going.{Goes, Keeps};

use crate::Objects;
use std::alloc::Global;
use wat_disk::Disk;
use wat_list::NoMemory;
use wat_pages::{PageRefusal, Within};
use wat_value::{Change, Key, Keys, Row, encode, is_short};

/// Whether the row's encoding has at most 3,500 bytes.
fn is_narrow(alloc: Global, row: &Row) -> Result<bool, NoMemory>
    ensures narrow { IfOk result (λ narrow. IsTrue narrow ↔ (length (row_bytes row.now) ≤ 3500)) }
    ensures encodable { IfOk result (λ narrow. IsTrue narrow → IsEncodable row.now) }
{
    if !is_short(row) {
        return Ok(false);
    }
    let mut bytes = Vec::new(alloc);
    encode(row, &mut bytes)?;
    Ok(bytes.len() <= 3500)
}

impl Objects {
    ghost use Rattle.wat_objects.specs.Objects.{pages_of, Holds, HoldsOn};

    /// The primary keys of a table's rows, ascending; none where there is no such table.
    pub fn keys(&self, table: u32) -> Result<Keys, NoMemory>
        ensures order { IfOk result (λ keys. rising key_cmp keys ≡ true) }
        ensures all { (book : Book) (s : State) → HoldsOn book self.now s → IfOk result (λ keys. (key : AnyRow) → Has key keys ↔ IsSome (row_at s.tables table key)) }
    {
        self.heap.keys(table)
    }

    /// The row of the table with that primary key.
    pub fn row<D: Disk>(
        &mut self,
        disk: &mut D,
        table: u32,
        key: &Key,
    ) -> Result<Option<Row>, PageRefusal>
        requires known { D.tells_content → IsPagesOf (D.told disk.old) (pages_of self.old) }
        ensures row { D.tells_content → (s : State) → Holds (D.told disk.old) self.old s → IfOk result (λ row. row ≡ row_at s.tables table key.now) }
        ensures holds { D.tells_content → (s : State) → Holds (D.told disk.old) self.old s → OnOk result (Holds (D.told disk.new) self.new s) }
        ensures goes { D.tells_content → Goes (D.told disk.old) (D.told disk.new) (pages_of self.old) (pages_of self.new) }
        ensures keeps { D.tells_content → OnOk result (Keeps (D.told disk.old) (D.told disk.new) (pages_of self.new)) }
        ensures undamaged { D.tells_content → (saved : Checkpoint) → IsSafe saved (D.told disk.old) → saved.count ≡ stored_of (pages_of self.old) → (s : State) → Holds (D.told disk.old) self.old s → IfErr result (λ refusal. IfDamaged refusal (λ file at. ⊥)) }
        ensures limited { IfErr result (λ refusal. IfPageLimit refusal (λ count limit. ⊥)) }
        ensures cause { HasCause (D.told disk.old).faults (D.told disk.new).faults (result ≡ Err PageRefusal.DiskFault) }
    {
        match self.heap.get(&mut self.pages, disk, table, key) {
            Ok(row) => Ok(row),
            Err(refusal) => Err(refusal),
        }
    }

    /// Puts a row of the table under its primary key. Where no such table stands, or the row is too wide for one, nothing is changed.
    fn put_row<D: Disk>(
        &mut self,
        disk: &mut D,
        table: u32,
        row: &Row,
        within: Within,
    ) -> Result<(), PageRefusal>
        requires known { D.tells_content → IsPagesOf (D.told disk.old) (pages_of self.old) }
        ensures put { D.tells_content → (s : State) (t : Tables) (def : AnyDef) → Holds (D.told disk.old) self.old s → def_at (catalog_of s.tables) table ≡ Some def → fits def row.now ≡ true → IsTables t → catalog_of t ≡ catalog_of s.tables
            → Sets (row_at s.tables) table (key_of def row.now) (Some row.now) (row_at t) → OnOk result (Holds (D.told disk.new) self.new (record { tables = t; lists = s.lists })) }
        ensures goes { D.tells_content → Goes (D.told disk.old) (D.told disk.new) (pages_of self.old) (pages_of self.new) }
        ensures keeps { D.tells_content → OnOk result (Keeps (D.told disk.old) (D.told disk.new) (pages_of self.new)) }
        ensures undamaged { D.tells_content → (saved : Checkpoint) → IsSafe saved (D.told disk.old) → saved.count ≡ stored_of (pages_of self.old) → (s : State) → Holds (D.told disk.old) self.old s → IfErr result (λ refusal. IfDamaged refusal (λ file at. ⊥)) }
        ensures limited { IfErr result (λ refusal. IfPageLimit refusal (λ count limit. (count ≡ count_of (pages_of self.old)) × (limit ≡ bound_of within (pages_of self.old)) × (limit ≤ count) × (first_free_of (pages_of self.old) ≡ 0))) }
        ensures cause { HasCause (D.told disk.old).faults (D.told disk.new).faults (result ≡ Err PageRefusal.DiskFault) }
    {
        let Some(def) = self.schema.def(table) else {
            return Ok(());
        };
        let key = match def.key_of(self.alloc, row) {
            Ok(key) => key,
            Err(_) => return Err(PageRefusal::Memory),
        };
        match is_narrow(self.alloc, row) {
            Ok(true) => {}
            Ok(false) => return Ok(()),
            Err(_) => return Err(PageRefusal::Memory),
        }
        match self
            .heap
            .put(&mut self.pages, disk, table, &key, row, within)
        {
            Ok(()) => Ok(()),
            Err(refusal) => Err(refusal),
        }
    }

    /// Takes the row with this one's primary key off the table. Where no such table stands, nothing is changed.
    fn remove_row<D: Disk>(
        &mut self,
        disk: &mut D,
        table: u32,
        row: &Row,
    ) -> Result<(), PageRefusal>
        requires known { D.tells_content → IsPagesOf (D.told disk.old) (pages_of self.old) }
        ensures removed { D.tells_content → (s : State) (t : Tables) (def : AnyDef) → Holds (D.told disk.old) self.old s → def_at (catalog_of s.tables) table ≡ Some def → IsTables t → catalog_of t ≡ catalog_of s.tables
            → Sets (row_at s.tables) table (key_of def row.now) None (row_at t) → OnOk result (Holds (D.told disk.new) self.new (record { tables = t; lists = s.lists })) }
        ensures goes { D.tells_content → Goes (D.told disk.old) (D.told disk.new) (pages_of self.old) (pages_of self.new) }
        ensures keeps { D.tells_content → OnOk result (Keeps (D.told disk.old) (D.told disk.new) (pages_of self.new)) }
        ensures undamaged { D.tells_content → (saved : Checkpoint) → IsSafe saved (D.told disk.old) → saved.count ≡ stored_of (pages_of self.old) → (s : State) → Holds (D.told disk.old) self.old s → IfErr result (λ refusal. IfDamaged refusal (λ file at. ⊥)) }
        ensures limited { IfErr result (λ refusal. IfPageLimit refusal (λ count limit. ⊥)) }
        ensures cause { HasCause (D.told disk.old).faults (D.told disk.new).faults (result ≡ Err PageRefusal.DiskFault) }
    {
        let Some(def) = self.schema.def(table) else {
            return Ok(());
        };
        let key = match def.key_of(self.alloc, row) {
            Ok(key) => key,
            Err(_) => return Err(PageRefusal::Memory),
        };
        match self.heap.remove(&mut self.pages, disk, table, &key) {
            Ok(()) => Ok(()),
            Err(refusal) => Err(refusal),
        }
    }

    /// Makes a change that applies.
    ///
    /// `PageLimit` comes only where a row is put, no page is free, and the count of pages has reached the bound.
    pub fn make<D: Disk>(
        &mut self,
        disk: &mut D,
        change: &Change,
        within: Within,
    ) -> Result<(), PageRefusal>
        requires known { D.tells_content → IsPagesOf (D.told disk.old) (pages_of self.old) }
        ensures made { D.tells_content → (s : State) (t : Tables) → Holds (D.told disk.old) self.old s → apply_change change.now s.tables ≡ Some t → OnOk result (Holds (D.told disk.new) self.new (record { tables = t; lists = s.lists })) }
        ensures goes { D.tells_content → Goes (D.told disk.old) (D.told disk.new) (pages_of self.old) (pages_of self.new) }
        ensures keeps { D.tells_content → OnOk result (Keeps (D.told disk.old) (D.told disk.new) (pages_of self.new)) }
        ensures undamaged { D.tells_content → (saved : Checkpoint) → IsSafe saved (D.told disk.old) → saved.count ≡ stored_of (pages_of self.old) → (s : State) → Holds (D.told disk.old) self.old s → IfErr result (λ refusal. IfDamaged refusal (λ file at. ⊥)) }
        ensures limited { IfErr result (λ refusal. IfPageLimit refusal (λ count limit. (count ≡ count_of (pages_of self.old)) × (limit ≡ bound_of within (pages_of self.old)) × (limit ≤ count) × (first_free_of (pages_of self.old) ≡ 0))) }
        ensures cause { HasCause (D.told disk.old).faults (D.told disk.new).faults (result ≡ Err PageRefusal.DiskFault) }
    {
        match change {
            Change::Insert { table, row } => self.put_row(disk, *table, row, within),
            Change::Update { table, after, .. } => self.put_row(disk, *table, after, within),
            Change::Delete { table, before } => self.remove_row(disk, *table, before),
        }
    }
}

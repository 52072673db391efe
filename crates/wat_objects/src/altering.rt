// Changes of the schema.
ghost use Rattle.std.specs.Prelude.{◌≡◌, ◌≤◌, ℕ, List, true, None, Err, IfErr, OnOk};
ghost use Rattle.wat_faults.specs.Faults.{HasCause};
ghost use Rattle.wat_restore.specs.Restored.{Checkpoint};
ghost use Rattle.wat_restore.specs.Safe.{IsSafe};
ghost use Rattle.wat_images.specs.Refusal.{IfDamaged, IfPageLimit};
ghost use Rattle.wat_pages.specs.Pages.{stored_of, book_of, IsPagesOf};
ghost use Rattle.wat_pages.specs.Within.{bound_of};
ghost use Rattle.wat_rows.specs.Rows.{Defs, RowMap, Sets};
ghost use Rattle.wat_schema.specs.Catalog.{Catalog};
ghost use Rattle.wat_schema.specs.Definitions.{allows, altered};
ghost use Rattle.wat_schema.specs.Tables.{after_alter, catalog_of};
ghost use Rattle.wat_replay.specs.State.{State};
ghost use Rattle.wat_cells.specs.Going.{Goes, Keeps};

use crate::Objects;
use wat_catalog_chain::schema_payload;
use wat_disk::Disk;
use wat_pages::{PageRefusal, Within};
use wat_payload::write_chain;
use wat_value::{Key, SchemaChange};

impl Objects {
    ghost use Rattle.wat_objects.specs.Objects.{pages_of, schema_of, undo_of, Holds};
    ghost use Rattle.wat_objects.specs.Altering.{HoldsParts, rows_left, without, without_keys};

    /// Writes the schema on its chain.
    fn write_schema<D: Disk>(&mut self, disk: &mut D, within: Within) -> Result<(), PageRefusal>
        requires known { D.tells_content → IsPagesOf (D.told disk.old) (pages_of self.old) }
        ensures written { D.tells_content → (c : Catalog) (defs : Defs) (rows : RowMap) → HoldsParts (book_of (D.told disk.old) (pages_of self.old)) self.old c defs rows
            → OnOk result (HoldsParts (book_of (D.told disk.new) (pages_of self.new)) self.new (schema_of self.old) defs rows) }
        ensures schema { schema_of self.new ≡ schema_of self.old }
        ensures undo { undo_of self.new ≡ undo_of self.old }
        ensures goes { D.tells_content → Goes (D.told disk.old) (D.told disk.new) (pages_of self.old) (pages_of self.new) }
        ensures keeps { D.tells_content → OnOk result (Keeps (D.told disk.old) (D.told disk.new) (pages_of self.new)) }
        ensures undamaged { D.tells_content → (saved : Checkpoint) → IsSafe saved (D.told disk.old) → saved.count ≡ stored_of (pages_of self.old) → (c : Catalog) (defs : Defs) (rows : RowMap)
            → HoldsParts (book_of (D.told disk.old) (pages_of self.old)) self.old c defs rows → IfErr result (λ refusal. IfDamaged refusal (λ file at. ⊥)) }
        ensures limited { IfErr result (λ refusal. IfPageLimit refusal (λ count limit. (limit ≡ bound_of within (pages_of self.old)) × (limit ≤ count))) }
        ensures cause { HasCause (D.told disk.old).faults (D.told disk.new).faults (result ≡ Err PageRefusal.DiskFault) }
    {
        let payload = match schema_payload(self.alloc, &self.schema) {
            Ok(payload) => payload,
            Err(_) => return Err(PageRefusal::Memory),
        };
        match write_chain(
            self.alloc,
            &mut self.pages,
            disk,
            self.catalog,
            payload.as_slice(),
            within,
        ) {
            Ok(first) => {
                self.catalog = first;
                Ok(())
            }
            Err(refusal) => Err(refusal),
        }
    }

    /// Makes the change in the schema and on its chain; the rows stay as they are.
    fn change_schema<D: Disk>(
        &mut self,
        disk: &mut D,
        change: &SchemaChange,
        within: Within,
    ) -> Result<(), PageRefusal>
        requires known { D.tells_content → IsPagesOf (D.told disk.old) (pages_of self.old) }
        requires allowed { allows change.now (schema_of self.old) ≡ true }
        ensures changed { D.tells_content → (c : Catalog) (defs : Defs) (rows : RowMap) → HoldsParts (book_of (D.told disk.old) (pages_of self.old)) self.old c defs rows
            → OnOk result (HoldsParts (book_of (D.told disk.new) (pages_of self.new)) self.new (altered change.now (schema_of self.old)) defs rows) }
        ensures schema { OnOk result (schema_of self.new ≡ altered change.now (schema_of self.old)) }
        ensures undo { undo_of self.new ≡ undo_of self.old }
        ensures goes { D.tells_content → Goes (D.told disk.old) (D.told disk.new) (pages_of self.old) (pages_of self.new) }
        ensures keeps { D.tells_content → OnOk result (Keeps (D.told disk.old) (D.told disk.new) (pages_of self.new)) }
        ensures undamaged { D.tells_content → (saved : Checkpoint) → IsSafe saved (D.told disk.old) → saved.count ≡ stored_of (pages_of self.old) → (c : Catalog) (defs : Defs) (rows : RowMap)
            → HoldsParts (book_of (D.told disk.old) (pages_of self.old)) self.old c defs rows → IfErr result (λ refusal. IfDamaged refusal (λ file at. ⊥)) }
        ensures limited { IfErr result (λ refusal. IfPageLimit refusal (λ count limit. (limit ≡ bound_of within (pages_of self.old)) × (limit ≤ count))) }
        ensures cause { HasCause (D.told disk.old).faults (D.told disk.new).faults (result ≡ Err PageRefusal.DiskFault) }
    {
        match self.schema.apply(change) {
            Ok(()) => {}
            Err(_) => return Err(PageRefusal::Memory),
        }
        match self.write_schema(disk, within) {
            Ok(()) => Ok(()),
            Err(refusal) => Err(refusal),
        }
    }

    /// Takes the row with that primary key off the table.
    fn drop_row<D: Disk>(&mut self, disk: &mut D, table: u32, key: &Key) -> Result<(), PageRefusal>
        requires known { D.tells_content → IsPagesOf (D.told disk.old) (pages_of self.old) }
        ensures dropped { D.tells_content → (c : Catalog) (defs : Defs) (rows after : RowMap) → HoldsParts (book_of (D.told disk.old) (pages_of self.old)) self.old c defs rows → Sets rows table key.now None after
            → OnOk result (HoldsParts (book_of (D.told disk.new) (pages_of self.new)) self.new c defs after) }
        ensures schema { schema_of self.new ≡ schema_of self.old }
        ensures undo { undo_of self.new ≡ undo_of self.old }
        ensures goes { D.tells_content → Goes (D.told disk.old) (D.told disk.new) (pages_of self.old) (pages_of self.new) }
        ensures keeps { D.tells_content → OnOk result (Keeps (D.told disk.old) (D.told disk.new) (pages_of self.new)) }
        ensures undamaged { D.tells_content → (saved : Checkpoint) → IsSafe saved (D.told disk.old) → saved.count ≡ stored_of (pages_of self.old) → (c : Catalog) (defs : Defs) (rows : RowMap)
            → HoldsParts (book_of (D.told disk.old) (pages_of self.old)) self.old c defs rows → IfErr result (λ refusal. IfDamaged refusal (λ file at. ⊥)) }
        ensures limited { IfErr result (λ refusal. IfPageLimit refusal (λ count limit. ⊥)) }
        ensures cause { HasCause (D.told disk.old).faults (D.told disk.new).faults (result ≡ Err PageRefusal.DiskFault) }
    {
        match self.heap.remove(&mut self.pages, disk, table, key) {
            Ok(()) => Ok(()),
            Err(refusal) => Err(refusal),
        }
    }

    /// Takes the rows with these primary keys off the table.
    fn drop_keys<D: Disk>(
        &mut self,
        disk: &mut D,
        table: u32,
        keys: &[Key],
    ) -> Result<(), PageRefusal>
        requires known { D.tells_content → IsPagesOf (D.told disk.old) (pages_of self.old) }
        ensures dropped { D.tells_content → (c : Catalog) (defs : Defs) (rows : RowMap) → HoldsParts (book_of (D.told disk.old) (pages_of self.old)) self.old c defs rows
            → OnOk result (HoldsParts (book_of (D.told disk.new) (pages_of self.new)) self.new c defs (without_keys table keys.now rows)) }
        ensures schema { schema_of self.new ≡ schema_of self.old }
        ensures undo { undo_of self.new ≡ undo_of self.old }
        ensures goes { D.tells_content → Goes (D.told disk.old) (D.told disk.new) (pages_of self.old) (pages_of self.new) }
        ensures keeps { D.tells_content → OnOk result (Keeps (D.told disk.old) (D.told disk.new) (pages_of self.new)) }
        ensures undamaged { D.tells_content → (saved : Checkpoint) → IsSafe saved (D.told disk.old) → saved.count ≡ stored_of (pages_of self.old) → (c : Catalog) (defs : Defs) (rows : RowMap)
            → HoldsParts (book_of (D.told disk.old) (pages_of self.old)) self.old c defs rows → IfErr result (λ refusal. IfDamaged refusal (λ file at. ⊥)) }
        ensures limited { IfErr result (λ refusal. IfPageLimit refusal (λ count limit. ⊥)) }
        ensures cause { HasCause (D.told disk.old).faults (D.told disk.new).faults (result ≡ Err PageRefusal.DiskFault) }
    {
        for i in 0..keys.len() {
            match self.drop_row(disk, table, &keys[i]) {
                Ok(()) => {}
                Err(refusal) => return Err(refusal),
            }
        }
        Ok(())
    }

    /// Takes all rows off the table.
    fn drop_rows<D: Disk>(&mut self, disk: &mut D, table: u32) -> Result<(), PageRefusal>
        requires known { D.tells_content → IsPagesOf (D.told disk.old) (pages_of self.old) }
        ensures dropped { D.tells_content → (c : Catalog) (defs : Defs) (rows : RowMap) → HoldsParts (book_of (D.told disk.old) (pages_of self.old)) self.old c defs rows
            → OnOk result (HoldsParts (book_of (D.told disk.new) (pages_of self.new)) self.new c defs (without table rows)) }
        ensures schema { schema_of self.new ≡ schema_of self.old }
        ensures undo { undo_of self.new ≡ undo_of self.old }
        ensures goes { D.tells_content → Goes (D.told disk.old) (D.told disk.new) (pages_of self.old) (pages_of self.new) }
        ensures keeps { D.tells_content → OnOk result (Keeps (D.told disk.old) (D.told disk.new) (pages_of self.new)) }
        ensures undamaged { D.tells_content → (saved : Checkpoint) → IsSafe saved (D.told disk.old) → saved.count ≡ stored_of (pages_of self.old) → (c : Catalog) (defs : Defs) (rows : RowMap)
            → HoldsParts (book_of (D.told disk.old) (pages_of self.old)) self.old c defs rows → IfErr result (λ refusal. IfDamaged refusal (λ file at. ⊥)) }
        ensures limited { IfErr result (λ refusal. IfPageLimit refusal (λ count limit. ⊥)) }
        ensures cause { HasCause (D.told disk.old).faults (D.told disk.new).faults (result ≡ Err PageRefusal.DiskFault) }
    {
        let keys = match self.heap.keys(table) {
            Ok(keys) => keys,
            Err(_) => return Err(PageRefusal::Memory),
        };
        match self.drop_keys(disk, table, keys.as_slice()) {
            Ok(()) => Ok(()),
            Err(refusal) => Err(refusal),
        }
    }

    /// Takes the rows off the table that goes, if one does.
    fn leave_rows<D: Disk>(
        &mut self,
        disk: &mut D,
        change: &SchemaChange,
    ) -> Result<(), PageRefusal>
        requires known { D.tells_content → IsPagesOf (D.told disk.old) (pages_of self.old) }
        ensures left { D.tells_content → (c : Catalog) (defs : Defs) (rows : RowMap) → HoldsParts (book_of (D.told disk.old) (pages_of self.old)) self.old c defs rows
            → OnOk result (HoldsParts (book_of (D.told disk.new) (pages_of self.new)) self.new c defs (rows_left change.now rows)) }
        ensures schema { schema_of self.new ≡ schema_of self.old }
        ensures undo { undo_of self.new ≡ undo_of self.old }
        ensures goes { D.tells_content → Goes (D.told disk.old) (D.told disk.new) (pages_of self.old) (pages_of self.new) }
        ensures keeps { D.tells_content → OnOk result (Keeps (D.told disk.old) (D.told disk.new) (pages_of self.new)) }
        ensures undamaged { D.tells_content → (saved : Checkpoint) → IsSafe saved (D.told disk.old) → saved.count ≡ stored_of (pages_of self.old) → (c : Catalog) (defs : Defs) (rows : RowMap)
            → HoldsParts (book_of (D.told disk.old) (pages_of self.old)) self.old c defs rows → IfErr result (λ refusal. IfDamaged refusal (λ file at. ⊥)) }
        ensures limited { IfErr result (λ refusal. IfPageLimit refusal (λ count limit. ⊥)) }
        ensures cause { HasCause (D.told disk.old).faults (D.told disk.new).faults (result ≡ Err PageRefusal.DiskFault) }
    {
        match change {
            SchemaChange::DropTable { table } => self.drop_rows(disk, *table),
            SchemaChange::CreateTable(_) => Ok(()),
            SchemaChange::CreateIndex(_) => Ok(()),
        }
    }

    /// Makes a change of the schema that is allowed: the schema is written on its chain anew, and the rows of a table that goes
    /// are taken off. A change that is not allowed changes nothing.
    ///
    /// `PageLimit` comes only from the schema's chain: the bound, and a count of pages that has reached it.
    pub fn alter<D: Disk>(
        &mut self,
        disk: &mut D,
        change: &SchemaChange,
        within: Within,
    ) -> Result<(), PageRefusal>
        requires known { D.tells_content → IsPagesOf (D.told disk.old) (pages_of self.old) }
        ensures altered { D.tells_content → (s : State) → Holds (D.told disk.old) self.old s → allows change.now (catalog_of s.tables) ≡ true → OnOk result (Holds (D.told disk.new) self.new (record { tables = after_alter change.now s.tables; lists = s.lists })) }
        ensures goes { D.tells_content → Goes (D.told disk.old) (D.told disk.new) (pages_of self.old) (pages_of self.new) }
        ensures keeps { D.tells_content → OnOk result (Keeps (D.told disk.old) (D.told disk.new) (pages_of self.new)) }
        ensures undamaged { D.tells_content → (saved : Checkpoint) → IsSafe saved (D.told disk.old) → saved.count ≡ stored_of (pages_of self.old) → (s : State) → Holds (D.told disk.old) self.old s → IfErr result (λ refusal. IfDamaged refusal (λ file at. ⊥)) }
        ensures limited { IfErr result (λ refusal. IfPageLimit refusal (λ count limit. (limit ≡ bound_of within (pages_of self.old)) × (limit ≤ count))) }
        ensures cause { HasCause (D.told disk.old).faults (D.told disk.new).faults (result ≡ Err PageRefusal.DiskFault) }
    {
        if !self.schema.allows(change) {
            return Ok(());
        }
        match self.change_schema(disk, change, within) {
            Ok(()) => {}
            Err(refusal) => return Err(refusal),
        }
        match self.leave_rows(disk, change) {
            Ok(()) => Ok(()),
            Err(refusal) => Err(refusal),
        }
    }
}

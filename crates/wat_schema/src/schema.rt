ghost use Rattle.std.specs.Prelude.{◌≡◌, ◌≤◌, ◌↔◌, if◌then◌else◌, [], ◌∷◌, true, Some, None, map, slice_get, IfOk, OnOk, OnErr, IsSome};
ghost use Rattle.std.specs.List.{flat_map};
ghost use Rattle.std.specs.Option.{option_copied, option_map};
ghost use Rattle.wat_value.specs.declared.change.SchemaChange.TheVariants as change;
ghost use Rattle.wat_schema.specs.Catalog.{Catalog, column_at, def_at, empty_catalog, has_index_named, in_order, index_at, listing_at, table_named};
ghost use Rattle.wat_schema.specs.Definitions.{allows, allows_index, allows_table, altered, bad_index_at, bad_table, is_full, next_index_at};
ghost use Rattle.wat_schema.specs.Making.{catalog_from, made_from, numbered_from, with_indexes_of, with_tables_of};
ghost use Rattle.wat_schema.specs.Stored.{IsCatalog, IsStored, defs_of, indexes_of};

use crate::entry::Entry;
use crate::owners::Owners;
use crate::rules::{bad_table, in_table_order, is_definition};
use indexmap::IndexSet;
use std::alloc::Global;
use std::marker::Model;
use wat_list::{Copied, Items, NoMemory, item};
use wat_value::{Columns, IndexDef, IndexDefs, Name, Ordinals, SchemaChange, TableDef, TableDefs};

/// The tables by number with their indexes, and the next table number.
///
/// A name is given by its characters. One with a capital is the name of nothing.
#[derive(Drop)]
pub struct Schema {
    entries: Vec<Entry>,
    /// The numbers of the tables, each at the place of its entry.
    numbers: IndexSet<u32>,
    /// Their names, in the same places.
    names: IndexSet<String>,
    owners: Owners,
    next: u32,
}

impl Model for Schema {
    ghost use Rattle.std.specs.Prelude.{map, string_bytes};
    ghost use Rattle.wat_schema.specs.Catalog.{Catalog};
    ghost use Rattle.wat_schema.specs.Kept.{IsKept, IsOwned};
    ghost use Rattle.wat_schema.specs.Stored.{IsCatalog};

    ghost Value = { Catalog };

    ghost view = { λ s. record { tables = s.entries.items; next = s.next } };

    ghost invariant = { λ s. (IsKept (record { tables = s.entries.items; next = s.next }) s.numbers.keys (map string_bytes s.names.keys) × IsOwned s.owners.items s.entries.items) × IsCatalog (record { tables = s.entries.items; next = s.next }) };
}

impl Schema {
    /// No tables. The first one gets number 1.
    pub fn new(alloc: Global) -> Self
        ensures { result ≡ empty_catalog }
    {
        Schema {
            entries: Vec::new(alloc),
            numbers: IndexSet::new(alloc),
            names: IndexSet::new(alloc),
            owners: Owners::new(alloc),
            next: 1,
        }
    }

    /// The schema of these tables and indexes with this next table number, or None where they are
    /// those of no schema.
    pub fn of(
        alloc: Global,
        defs: &TableDefs,
        indexes: &IndexDefs,
        next: u32,
    ) -> Result<Option<Self>, NoMemory>
        ensures { IfOk result (λ schema. (c : Catalog) → (schema ≡ Some c) ↔ IsStored c defs.now indexes.now next) }
    {
        let schema = Schema::made_in_order(alloc, defs, indexes, next)?;
        Ok(schema)
    }

    /// The same, for a schema that is made by changes.
    fn made_in_order(
        alloc: Global,
        defs: &TableDefs,
        indexes: &IndexDefs,
        next: u32,
    ) -> Result<Option<Self>, NoMemory>
        ensures { IfOk result (λ schema. schema ≡ catalog_from defs.now indexes.now next) }
    {
        if in_table_order(indexes.as_slice()) {
            Schema::made_of(alloc, defs, indexes, next)
        } else {
            Ok(None)
        }
    }

    /// The schema that is made of these one after another, or None where it may not be.
    fn made_of(
        alloc: Global,
        defs: &TableDefs,
        indexes: &IndexDefs,
        next: u32,
    ) -> Result<Option<Self>, NoMemory>
        ensures { IfOk result (λ schema. schema ≡ made_from defs.now indexes.now next) }
    {
        let mut schema = Schema::new(alloc);
        for i in 0..defs.len() {
            if !schema.add_table(item(defs, i))? {
                return Ok(None);
            }
        }
        for i in 0..indexes.len() {
            if !schema.add_index(item(indexes, i))? {
                return Ok(None);
            }
        }
        if next < schema.next() {
            return Ok(None);
        }
        schema.number_from(next);
        Ok(Some(schema))
    }

    /// Leaves the numbers below this one unused.
    fn number_from(&mut self, next: u32)
        requires { self.old.next ≤ next }
        ensures { self.new ≡ numbered_from next self.old }
    {
        self.next = next;
    }

    /// Makes the table under its own number, or answers false where it may not be made.
    fn add_table(&mut self, def: &TableDef) -> Result<bool, NoMemory>
        ensures { IfOk result (λ made. (if made then Some self.new else None) ≡ with_tables_of (def.now ∷ []) self.old) }
    {
        if def.number < self.next {
            return Ok(false);
        }
        self.number_from(def.number);
        if !self.allows_table(def) {
            return Ok(false);
        }
        self.create_table(def)?;
        Ok(true)
    }

    /// Makes the index, or answers false where it may not be made.
    fn add_index(&mut self, index: &IndexDef) -> Result<bool, NoMemory>
        ensures { IfOk result (λ made. (if made then Some self.new else None) ≡ with_indexes_of (index.now ∷ []) self.old) }
    {
        let allowed = self.allows_index(index);
        if !allowed {
            return Ok(allowed);
        }
        self.create_index(index)?;
        Ok(allowed)
    }

    /// The definitions of the tables, by number.
    pub fn defs(&self) -> Result<TableDefs, NoMemory>
        ensures { IfOk result (λ defs. defs ≡ defs_of self.now) }
    {
        let mut defs = Items::new(*self.entries.allocator());
        for entry in self.entries.as_slice() {
            defs.push(entry.def().copy(*self.entries.allocator())?)?;
        }
        Ok(defs)
    }

    /// The definitions of the indexes, by table and then by number.
    pub fn indexes(&self) -> Result<IndexDefs, NoMemory>
        ensures { IfOk result (λ indexes. indexes ≡ indexes_of self.now) }
    {
        let mut indexes = Items::new(*self.entries.allocator());
        for entry in self.entries.as_slice() {
            indexes.append(entry.indexes().copy(*self.entries.allocator())?)?;
        }
        Ok(indexes)
    }

    /// The number of the next table.
    pub fn next(&self) -> u32
        ensures number { result ≡ self.now.next }
        ensures order { in_order self.now ≡ true }
        ensures catalog { IsCatalog self.now }
    {
        self.next
    }

    /// Every schema is a catalog. The call does nothing: it tells so.
    pub fn catalog_law(&self)
        ensures { IsCatalog self.now }
    {
        // What a schema keeps is known where one of its fields is read.
        let _next = self.next;
    }

    fn entry_at(&self, i: usize) -> Option<&Entry>
        ensures { option_copied result ≡ slice_get self.now.tables i }
    {
        match self.entries.get(i) {
            Some(entry) => Some(entry),
            None => None,
        }
    }

    fn entry(&self, table: u32) -> Option<&Entry>
        ensures { option_copied result ≡ listing_at self.now table }
    {
        match self.numbers.get_index_of(&table) {
            Some(i) => self.entry_at(i),
            None => None,
        }
    }

    fn number_at(&self, i: usize) -> Option<u32>
        ensures { result ≡ option_map (λ t. t.def.number) (slice_get self.now.tables i) }
    {
        match self.entries.get(i) {
            Some(entry) => Some(entry.def().number),
            None => None,
        }
    }

    /// The number of the table with the name.
    pub fn table(&self, name: &str) -> Option<u32>
        ensures { result ≡ table_named self.now name.now }
    {
        match self.names.get_index_of(name) {
            Some(i) => self.number_at(i),
            None => None,
        }
    }

    /// The definition of the table with the number.
    pub fn def(&self, table: u32) -> Option<&TableDef>
        ensures { option_copied result ≡ def_at self.now table }
    {
        let entry = self.entry(table)?;
        Some(entry.def())
    }

    /// The number of the table's column with the name, counted from 0.
    pub fn column(&self, table: u32, name: &str) -> Option<u8>
        ensures { result ≡ column_at self.now table name.now }
    {
        let entry = self.entry(table)?;
        entry.column(name)
    }

    /// The definition of the table's index with the number.
    pub fn index(&self, table: u32, index: u8) -> Option<&IndexDef>
        ensures { option_copied result ≡ index_at self.now table index }
    {
        let entry = self.entry(table)?;
        entry.index(index)
    }

    /// Whether an index of any table has the name.
    pub fn has_index(&self, name: &str) -> bool
        ensures { result ≡ has_index_named self.now name.now }
    {
        self.owners.contains(name)
    }

    /// The number that the next index of the table gets: one more than its greatest.
    pub fn next_index(&self, table: u32) -> Option<u8>
        ensures { result ≡ next_index_at self.now table }
    {
        let entry = self.entry(table)?;
        Some(entry.next_index())
    }

    /// Whether no more tables may be made.
    fn is_full(&self) -> bool
        ensures { result ≡ is_full self.now }
    {
        self.entries.len() >= 1000 || self.next >= u32::MAX
    }

    /// The smallest rule of tables that is broken by one with these columns. `keys` are its primary
    /// keys, each by the names of its columns; a name that no column has breaks a rule.
    pub fn bad_table(
        &self,
        columns: &Columns,
        keys: &Items<Items<Name>>,
    ) -> Result<Option<u8>, NoMemory>
        ensures { IfOk result (λ rule. rule ≡ bad_table self.now columns.now keys.now) }
    {
        let alloc = *self.entries.allocator();
        bad_table(alloc, self.is_full(), columns.as_slice(), keys.as_slice())
    }

    /// The smallest rule of indexes that is broken by one of the table over these columns; a number
    /// that is no column's breaks a rule. None too where no table has the number.
    pub fn bad_index(&self, table: u32, columns: &Ordinals) -> Option<u8>
        ensures { result ≡ bad_index_at self.now table columns.now }
    {
        let entry = self.entry(table)?;
        entry.bad_index(columns)
    }

    fn allows_table(&self, def: &TableDef) -> bool
        ensures { result ≡ allows_table self.now def.now }
    {
        def.number == self.next
            && self.table(def.name.as_str()).is_none()
            && is_definition(self.is_full(), def)
    }

    fn allows_index(&self, index: &IndexDef) -> bool
        ensures { result ≡ allows_index self.now index.now }
    {
        match self.entry(index.table) {
            Some(entry) => entry.allows_index(index) && !self.has_index(index.name.as_str()),
            None => false,
        }
    }

    /// Whether the schema change applies: a new table has the next number and a new index its
    /// table's next one, their names are free and no rule is broken; a table that is dropped stands.
    pub fn allows(&self, change: &SchemaChange) -> bool
        ensures { result ≡ allows change.now self.now }
    {
        match change {
            SchemaChange::CreateTable(def) => self.allows_table(def),
            SchemaChange::DropTable { table } => self.entry(*table).is_some(),
            SchemaChange::CreateIndex(index) => self.allows_index(index),
        }
    }

    fn create_table(&mut self, def: &TableDef) -> Result<(), NoMemory>
        requires { allows_table self.old def.now ≡ true }
        ensures applied { OnOk result (self.new ≡ altered (change.CreateTable def.now) self.old) }
        ensures kept { OnErr result (self.new ≡ self.old) }
    {
        let alloc = *self.entries.allocator();
        self.entries.reserve(1)?;
        self.numbers.reserve(1)?;
        self.names.reserve(1)?;
        let name = String::from_str(alloc, def.name.as_str())?;
        let copy = def.copy(alloc)?;
        let entry = Entry::new(alloc, copy)?;
        self.entries.push_reserved(entry);
        match self.numbers.insert(def.number) {
            Ok(_) => {}
            Err(_) => unreachable!(),
        }
        match self.names.insert(name) {
            Ok(_) => {}
            Err(_) => unreachable!(),
        }
        self.next += 1;
        Ok(())
    }

    fn drop_table(&mut self, table: u32)
        requires { IsSome (listing_at self.old table) }
        ensures { self.new ≡ altered (change.DropTable table) self.old }
    {
        match self.numbers.get_index_of(&table) {
            Some(i) => {
                self.entries.remove(i);
                self.numbers.shift_remove_index(i);
                self.names.shift_remove_index(i);
                self.owners.remove_of(table);
            }
            None => unreachable!(),
        }
    }

    fn create_index(&mut self, index: &IndexDef) -> Result<(), NoMemory>
        requires { allows_index self.old index.now ≡ true }
        ensures applied { OnOk result (self.new ≡ altered (change.CreateIndex index.now) self.old) }
        ensures kept { OnErr result (self.new ≡ self.old) }
    {
        let alloc = *self.entries.allocator();
        let copy = index.copy(alloc)?;
        let name = String::from_str(alloc, index.name.as_str())?;
        self.owners.reserve()?;
        match self.numbers.get_index_of(&index.table) {
            Some(i) => {
                let entry = &mut self.entries[i];
                entry.push_index(copy)?;
                self.owners.add(name, index.table);
                Ok(())
            }
            None => unreachable!(),
        }
    }

    /// Makes the schema change. After a refusal the schema is as before.
    pub fn apply(&mut self, change: &SchemaChange) -> Result<(), NoMemory>
        requires { allows change.now self.old ≡ true }
        ensures applied { OnOk result (self.new ≡ altered change.now self.old) }
        ensures kept { OnErr result (self.new ≡ self.old) }
    {
        match change {
            SchemaChange::CreateTable(def) => self.create_table(def),
            SchemaChange::DropTable { table } => {
                self.drop_table(*table);
                Ok(())
            }
            SchemaChange::CreateIndex(index) => self.create_index(index),
        }
    }
}

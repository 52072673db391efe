ghost use Rattle.std.specs.Prelude.{◌≡◌, ◌==◌, ◌++◌, ◌∷◌, [], true, false, map, is_some, slice_get, unwrap_or, Some, IfOk, OnOk, OnErr};
ghost use Rattle.std.specs.List.{filter};
ghost use Rattle.std.specs.Option.{option_copied};
ghost use Rattle.wat_value.specs.Changes.{changed_table};
ghost use Rattle.wat_value.specs.declared.change.Change.TheVariants as change;
ghost use Rattle.wat_value.specs.declared.change.SchemaChange.TheVariants as schema_change;
ghost use Rattle.wat_value.specs.declared.definition.IndexDef.{IndexDef as Index};
ghost use Rattle.wat_schema.specs.Catalog.{repeats};
ghost use Rattle.wat_schema.specs.Definitions.{allows};
ghost use Rattle.wat_schema.specs.Tables.{IsTables, after_alter, apply, apply_change, catalog_of, row_at, table_at};
ghost use Rattle.wat_meaning.specs.Meaning.{table_called};
ghost use Rattle.wat_tables.specs.Acting.{empty_table, empty_tables, is_fitting, standing_key};

use crate::stored_table::StoredTable;
use indexmap::IndexSet;
use std::alloc::Global;
use std::marker::Model;
use wat_list::{Copied, Items, NoMemory};
use wat_schema::Schema;
use wat_value::{Act, Change, IndexDef, IndexDefs, Key, Row, SchemaChange, TableDef, Value};

/// The tables of a database, by number, and the next table number.
#[derive(Drop)]
pub struct Tables {
    schema: Schema,
    /// The numbers of the tables, each at the place of its table.
    numbers: IndexSet<u32>,
    tables: Vec<StoredTable>,
}

impl Model for Tables {
    ghost use Rattle.wat_schema.specs.Tables as spec;
    ghost use Rattle.wat_tables.specs.Held.{IsOfSchema};

    ghost Value = { spec.Tables };

    ghost view = { λ t. record { tables = t.tables.items; next = t.schema.next } };

    ghost invariant = { λ t. IsOfSchema (record { tables = t.tables.items; next = t.schema.next }) t.schema t.numbers.keys };
}

// The number of the table that a change is of.
fn table_of(change: &Change) -> u32
    ensures { result ≡ changed_table change.now }
{
    match change {
        Change::Insert { table, .. } => *table,
        Change::Update { table, .. } => *table,
        Change::Delete { table, .. } => *table,
    }
}

// The indexes of the table.
fn indexes_of(alloc: Global, indexes: &[IndexDef], table: u32) -> Result<IndexDefs, NoMemory>
    ensures { IfOk result (λ found. found ≡ filter (λ index. table == index.table) indexes.now) }
{
    let mut found = Items::new(alloc);
    for index in indexes {
        if table == index.table {
            found.push(index.copy(alloc)?)?;
        }
    }
    Ok(found)
}

fn with_index(alloc: Global, indexes: &IndexDefs, index: &IndexDef) -> Result<IndexDefs, NoMemory>
    ensures { IfOk result (λ more. more ≡ indexes.now ++ index.now ∷ []) }
{
    let mut more = indexes.copy(alloc)?;
    more.push(index.copy(alloc)?)?;
    Ok(more)
}

// Tables without rows, by these definitions and indexes.
fn tables_of(
    alloc: Global,
    defs: &[TableDef],
    indexes: &[IndexDef],
) -> Result<Vec<StoredTable>, NoMemory>
    ensures { IfOk result (λ tables. tables.items ≡ map (λ def. empty_table def (filter (λ (index : Index). def.number == index.table) indexes.now)) defs.now) }
{
    let mut tables = Vec::new(alloc);
    for def in defs {
        let own = indexes_of(alloc, indexes, def.number)?;
        let table = StoredTable::new(alloc, def.copy(alloc)?, own);
        tables.push(table)?;
    }
    Ok(tables)
}

fn numbers_of(alloc: Global, defs: &[TableDef]) -> Result<IndexSet<u32>, NoMemory>
    requires { repeats ◌==◌ (map (λ def. def.number) defs.now) ≡ false }
    ensures { IfOk result (λ numbers. numbers.keys ≡ map (λ def. def.number) defs.now) }
{
    let mut numbers = IndexSet::new(alloc);
    for def in defs {
        numbers.insert(def.number)?;
    }
    Ok(numbers)
}

// The same schema. It is the one that is stored so.
fn copied_schema(alloc: Global, schema: &Schema) -> Result<Schema, NoMemory>
    ensures { IfOk result (λ copy. copy ≡ schema.now) }
{
    schema.catalog_law();
    let defs = schema.defs()?;
    let indexes = schema.indexes()?;
    match Schema::of(alloc, &defs, &indexes, schema.next())? {
        Some(copy) => Ok(copy),
        None => unreachable!(),
    }
}

impl Tables {
    /// The tables of the schema, without rows.
    pub fn of(alloc: Global, schema: &Schema) -> Result<Self, NoMemory>
        ensures { IfOk result (λ tables. tables ≡ empty_tables schema.now) }
    {
        schema.catalog_law();
        let defs = schema.defs()?;
        let indexes = schema.indexes()?;
        let numbers = numbers_of(alloc, defs.as_slice())?;
        let tables = tables_of(alloc, defs.as_slice(), indexes.as_slice())?;
        let schema = copied_schema(alloc, schema)?;
        Ok(Tables {
            schema,
            numbers,
            tables,
        })
    }

    pub fn schema(&self) -> &Schema
        ensures { result.now ≡ catalog_of self.now }
    {
        &self.schema
    }

    /// What holds of the tables of a database holds of these. The call does nothing: it tells so.
    pub fn tables_law(&self)
        ensures { IsTables self.now }
    {
        // What the tables keep is known where a field is read.
        let _schema = &self.schema;
    }

    fn table_in(&self, i: usize) -> Option<&StoredTable>
        ensures { option_copied result ≡ slice_get self.now.tables i }
    {
        match self.tables.get(i) {
            Some(table) => Some(table),
            None => None,
        }
    }

    fn table_at(&self, number: u32) -> Option<&StoredTable>
        ensures { option_copied result ≡ table_at self.now number }
    {
        match self.numbers.get_index_of(&number) {
            Some(i) => self.table_in(i),
            None => None,
        }
    }

    /// The table with the name.
    pub fn table(&self, name: &str) -> Option<&StoredTable>
        ensures { option_copied result ≡ table_called self.now name.now }
    {
        let number = self.schema.table(name)?;
        self.table_at(number)
    }

    /// The row with this primary key in the table with the number.
    pub fn row(&self, table: u32, key: &Key) -> Option<&[Value]>
        ensures { option_copied result ≡ row_at self.now table key.now }
    {
        self.table_at(table)?.row(key)
    }

    /// Makes a change of a row where it applies, and answers whether it does.
    pub fn change(&mut self, change: &Change) -> Result<bool, NoMemory>
        ensures applied { IfOk result (λ applied. applied ≡ is_some (apply_change change.now self.old)) }
        ensures after { OnOk result (self.new ≡ unwrap_or (apply_change change.now self.old) self.old) }
        ensures kept { OnErr result (self.new ≡ self.old) }
    {
        let alloc = *self.tables.allocator();
        match self.numbers.get_index_of(&table_of(change)) {
            Some(i) => {
                let table = &mut self.tables[i];
                table.apply(alloc, change)
            }
            None => Ok(false),
        }
    }

    /// Inserts a row that fits the table with the number, unless a row has its key: then it answers the
    /// key. The row is moved, and the table is searched once.
    pub fn insert(&mut self, table: u32, row: Row) -> Result<Option<Key>, NoMemory>
        requires { is_fitting (table_at self.old table) row ≡ true }
        ensures stood { IfOk result (λ stood. stood ≡ standing_key (table_at self.old table) row) }
        ensures after { OnOk result (self.new ≡ unwrap_or (apply_change (change.Insert table row) self.old) self.old) }
        ensures kept { OnErr result (self.new ≡ self.old) }
    {
        let alloc = *self.tables.allocator();
        match self.numbers.get_index_of(&table) {
            Some(i) => {
                let table = &mut self.tables[i];
                table.insert_fitting(alloc, row)
            }
            None => unreachable!(),
        }
    }

    fn create_table(&mut self, change: &SchemaChange, def: &TableDef) -> Result<(), NoMemory>
        requires allowed { allows change.now (catalog_of self.old) ≡ true }
        requires is { change.now ≡ schema_change.CreateTable def.now }
        ensures after { OnOk result (self.new ≡ after_alter change.now self.old) }
        ensures kept { OnErr result (self.new ≡ self.old) }
    {
        let alloc = *self.tables.allocator();
        self.tables.reserve(1)?;
        self.numbers.reserve(1)?;
        let table = StoredTable::new(alloc, def.copy(alloc)?, Items::new(alloc));
        self.schema.apply(change)?;
        self.tables.push_reserved(table);
        match self.numbers.insert(def.number) {
            Ok(_) => {}
            Err(_) => unreachable!(),
        }
        Ok(())
    }

    fn drop_table(&mut self, change: &SchemaChange, table: u32) -> Result<(), NoMemory>
        requires allowed { allows change.now (catalog_of self.old) ≡ true }
        requires is { change.now ≡ schema_change.DropTable table }
        ensures after { OnOk result (self.new ≡ after_alter change.now self.old) }
        ensures kept { OnErr result (self.new ≡ self.old) }
    {
        match self.numbers.get_index_of(&table) {
            Some(i) => {
                self.schema.apply(change)?;
                self.tables.remove(i);
                self.numbers.shift_remove_index(i);
                Ok(())
            }
            None => unreachable!(),
        }
    }

    fn create_index(&mut self, change: &SchemaChange, index: &IndexDef) -> Result<(), NoMemory>
        requires allowed { allows change.now (catalog_of self.old) ≡ true }
        requires is { change.now ≡ schema_change.CreateIndex index.now }
        ensures after { OnOk result (self.new ≡ after_alter change.now self.old) }
        ensures kept { OnErr result (self.new ≡ self.old) }
    {
        let alloc = *self.tables.allocator();
        match self.numbers.get_index_of(&index.table) {
            Some(i) => {
                let table = &mut self.tables[i];
                let indexes = with_index(alloc, table.indexes(), index)?;
                self.schema.apply(change)?;
                table.set_indexes(indexes);
                Ok(())
            }
            None => unreachable!(),
        }
    }

    /// Makes a schema change that is allowed.
    pub fn alter(&mut self, change: &SchemaChange) -> Result<(), NoMemory>
        requires { allows change.now (catalog_of self.old) ≡ true }
        ensures after { OnOk result (self.new ≡ after_alter change.now self.old) }
        ensures kept { OnErr result (self.new ≡ self.old) }
    {
        match change {
            SchemaChange::CreateTable(def) => self.create_table(change, def),
            SchemaChange::DropTable { table } => self.drop_table(change, *table),
            SchemaChange::CreateIndex(index) => self.create_index(change, index),
        }
    }

    /// Makes an act where it applies, and answers whether it does. Where it doesn't, and after want of
    /// memory, nothing has changed.
    pub fn apply(&mut self, act: &Act) -> Result<bool, NoMemory>
        ensures applied { IfOk result (λ applied. applied ≡ is_some (apply act.now self.old)) }
        ensures after { OnOk result (self.new ≡ unwrap_or (apply act.now self.old) self.old) }
        ensures kept { OnErr result (self.new ≡ self.old) }
    {
        match act {
            Act::OnRow(change) => self.change(change),
            Act::OnSchema(change) => {
                if !self.schema.allows(change) {
                    return Ok(false);
                }
                self.alter(change)?;
                Ok(true)
            }
        }
    }
}

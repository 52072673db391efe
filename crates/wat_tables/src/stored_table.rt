ghost use Rattle.std.specs.Prelude.{◌≡◌, ◌&&◌, true, [], map, is_some, unwrap_or, Some, IfOk, OnOk, OnErr};
ghost use Rattle.std.specs.Option.{option_copied};
ghost use Rattle.wat_value.specs.Fits.{fits, key_of, value_in};
ghost use Rattle.wat_value.specs.Order.{key_eq};
ghost use Rattle.wat_schema.specs.Tables.{after_delete, after_insert, after_update, has_key, has_row, row_eq, row_with};
ghost use Rattle.wat_meaning.specs.Meaning.{alone, sole_row};
ghost use Rattle.wat_tables.specs.Acting.{empty_table, standing_key, table_after};
ghost use Rattle.wat_tables.specs.Held.{key_there, put_in};

use std::alloc::Global;
use std::collections::BTreeMap;
use std::collections::btree_map::{Entry, Values};
use std::marker::Model;
use wat_list::{Copied, Items, NoMemory};
use wat_value::{Change, Combination, IndexDefs, Key, Row, TableDef, Value, compare_rows, fits};

/// A table with its rows, in the order of their primary keys. To find, add or take out a row by its
/// key costs a logarithm.
///
/// Each row stands in the map as the combination of it alone, so that a condition is taken over it
/// as it stands.
#[derive(Drop)]
pub struct StoredTable {
    def: TableDef,
    indexes: IndexDefs,
    rows: BTreeMap<Key, Combination>,
}

impl Model for StoredTable {
    ghost use Rattle.wat_schema.specs.Tables.{Table};
    ghost use Rattle.wat_tables.specs.Held.{IsKeyed, rows_of};

    ghost Value = { Table };

    ghost view = { λ t. record { def = t.def; indexes = t.indexes; rows = rows_of t.rows.entries } };

    ghost invariant = { λ t. IsKeyed (record { def = t.def; indexes = t.indexes; rows = rows_of t.rows.entries }) t.rows.entries };
}

fn alone(alloc: Global, row: Row) -> Result<Combination, NoMemory>
    ensures { IfOk result (λ rows. rows ≡ alone row) }
{
    let mut rows = Vec::with_capacity(alloc, 1)?;
    rows.push(Some(row))?;
    Ok(Items::from_vec(rows))
}

fn alone_copy(alloc: Global, row: &Row) -> Result<Combination, NoMemory>
    ensures { IfOk result (λ rows. rows ≡ alone row.now) }
{
    let row = row.copy(alloc)?;
    alone(alloc, row)
}

fn value_in(alloc: Global, row: &[Value], column: u8) -> Result<Value, NoMemory>
    ensures { IfOk result (λ value. value ≡ value_in row.now column) }
{
    match row.get(column as usize) {
        Some(value) => value.copy(alloc),
        None => Ok(Value::Null),
    }
}

// The key of a row, in as much room as it takes.
fn tight_key(alloc: Global, def: &TableDef, row: &[Value]) -> Result<Key, NoMemory>
    ensures { IfOk result (λ key. key ≡ key_of def.now row.now) }
{
    let columns = def.key.as_slice();
    let mut values = Vec::with_capacity(alloc, columns.len())?;
    for column in columns {
        values.push(value_in(alloc, row, *column)?)?;
    }
    Ok(Key::of(Items::from_vec(values)))
}

fn sole_row(rows: &Combination) -> &[Value]
    ensures { result.now ≡ sole_row rows.now }
{
    match rows.as_slice() {
        [Some(row), ..] => row.as_slice(),
        _ => &[],
    }
}

// Puts the rows under the key, or answers the key where it stands already. The map is searched once.
fn put(
    alloc: Global,
    map: &mut BTreeMap<Key, Combination>,
    key: Key,
    rows: Combination,
) -> Result<Option<Key>, NoMemory>
    ensures stood { IfOk result (λ stood. stood ≡ key_there key map.old.entries) }
    ensures after { OnOk result (map.new.entries ≡ put_in key rows map.old.entries) }
    ensures kept { OnErr result (map.new.entries ≡ map.old.entries) }
{
    match map.entry(key)? {
        Entry::Vacant(free) => {
            free.insert(rows);
            Ok(None)
        }
        Entry::Occupied(taken) => {
            let key = taken.key().copy(alloc);
            taken.into_mut();
            Ok(Some(key?))
        }
    }
}

impl StoredTable {
    /// A table without rows.
    pub(crate) fn new(alloc: Global, def: TableDef, indexes: IndexDefs) -> Self
        ensures { result ≡ empty_table def indexes }
    {
        StoredTable {
            def,
            indexes,
            rows: BTreeMap::new(alloc),
        }
    }

    pub fn def(&self) -> &TableDef
        ensures { result.now ≡ self.now.def }
    {
        &self.def
    }

    pub(crate) fn indexes(&self) -> &IndexDefs
        ensures { result.now ≡ self.now.indexes }
    {
        &self.indexes
    }

    /// The rows in the order of their keys, each as the combination of it alone.
    pub fn rows(&self) -> Values<'_, Key, Combination>
        ensures { result ≡ map alone self.now.rows }
    {
        self.rows.values()
    }

    /// Whether a row has this primary key.
    pub fn has_key(&self, key: &Key) -> bool
        ensures { result ≡ has_key self.now key.now }
    {
        self.rows.contains_key(key)
    }

    /// The row with this primary key.
    pub fn row(&self, key: &Key) -> Option<&[Value]>
        ensures { option_copied result ≡ row_with self.now key.now }
    {
        match self.rows.get(key) {
            Some(rows) => Some(sole_row(rows)),
            None => None,
        }
    }

    // Whether the row stands, whose key is given.
    fn has_row(&self, key: &Key, row: &Row) -> bool
        requires { key.now ≡ key_of self.now.def row.now }
        ensures { result ≡ has_row self.now row.now }
    {
        match self.rows.get(key) {
            Some(found) => compare_rows(row.as_slice(), sole_row(found)).is_eq(),
            None => false,
        }
    }

    // Whether the first row, whose key is given, stands, and the other one may take its place.
    fn may_become(&self, alloc: Global, key: &Key, row: &Row, after: &Row) -> Result<bool, NoMemory>
        requires { key.now ≡ key_of self.now.def row.now }
        ensures { IfOk result (λ may. may ≡ (has_row self.now row.now && key_eq (key_of self.now.def row.now) (key_of self.now.def after.now) && fits self.now.def after.now)) }
    {
        let key_after = self.def.key_of(alloc, after)?;
        let keeps_key = compare_rows(key.as_slice(), key_after.as_slice()).is_eq();
        Ok(self.has_row(key, row) && keeps_key && fits(&self.def, after))
    }

    /// Inserts a row that fits, or answers its key where a row has it.
    pub(crate) fn insert_fitting(
        &mut self,
        alloc: Global,
        row: Row,
    ) -> Result<Option<Key>, NoMemory>
        requires { fits self.old.def row ≡ true }
        ensures stood { IfOk result (λ stood. stood ≡ standing_key (Some self.old) row) }
        ensures after { OnOk result (self.new ≡ unwrap_or (after_insert row self.old) self.old) }
        ensures kept { OnErr result (self.new ≡ self.old) }
    {
        let key = tight_key(alloc, &self.def, row.as_slice())?;
        let rows = alone(alloc, row)?;
        put(alloc, &mut self.rows, key, rows)
    }

    fn insert(&mut self, alloc: Global, row: &Row) -> Result<bool, NoMemory>
        ensures applied { IfOk result (λ applied. applied ≡ is_some (after_insert row.now self.old)) }
        ensures after { OnOk result (self.new ≡ unwrap_or (after_insert row.now self.old) self.old) }
        ensures kept { OnErr result (self.new ≡ self.old) }
    {
        if !fits(&self.def, row) {
            return Ok(false);
        }
        let row = row.copy(alloc)?;
        let stood = self.insert_fitting(alloc, row)?;
        Ok(stood.is_none())
    }

    fn update(&mut self, alloc: Global, before: &Row, after: &Row) -> Result<bool, NoMemory>
        ensures applied { IfOk result (λ applied. applied ≡ is_some (after_update before.now after.now self.old)) }
        ensures after { OnOk result (self.new ≡ unwrap_or (after_update before.now after.now self.old) self.old) }
        ensures kept { OnErr result (self.new ≡ self.old) }
    {
        let key = self.def.key_of(alloc, before)?;
        if !self.may_become(alloc, &key, before, after)? {
            return Ok(false);
        }
        let rows = alone_copy(alloc, after)?;
        self.rows.insert(key, rows)?;
        Ok(true)
    }

    fn delete(&mut self, alloc: Global, before: &Row) -> Result<bool, NoMemory>
        ensures applied { IfOk result (λ applied. applied ≡ is_some (after_delete before.now self.old)) }
        ensures after { OnOk result (self.new ≡ unwrap_or (after_delete before.now self.old) self.old) }
        ensures kept { OnErr result (self.new ≡ self.old) }
    {
        let key = self.def.key_of(alloc, before)?;
        if !self.has_row(&key, before) {
            return Ok(false);
        }
        self.rows.remove(&key);
        Ok(true)
    }

    /// Makes a change of one of the table's rows where it applies, and answers whether it does.
    pub(crate) fn apply(&mut self, alloc: Global, change: &Change) -> Result<bool, NoMemory>
        ensures applied { IfOk result (λ applied. applied ≡ is_some (table_after change.now self.old)) }
        ensures after { OnOk result (self.new ≡ unwrap_or (table_after change.now self.old) self.old) }
        ensures kept { OnErr result (self.new ≡ self.old) }
    {
        match change {
            Change::Insert { row, .. } => self.insert(alloc, row),
            Change::Update { before, after, .. } => self.update(alloc, before, after),
            Change::Delete { before, .. } => self.delete(alloc, before),
        }
    }

    pub(crate) fn set_indexes(&mut self, indexes: IndexDefs)
        ensures { self.new ≡ record self.old { indexes = indexes } }
    {
        self.indexes = indexes;
    }
}

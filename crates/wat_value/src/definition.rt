ghost use Rattle.std.specs.Prelude.{◌≡◌, ◌++◌, IfOk, OnOk};
ghost use Rattle.wat_value.specs.Fits.{fits, fits_column, key_of, value_in, values_in};

use crate::key::Key;
use crate::value::{Row, Value};
use std::alloc::Global;
use wat_list::{Copied, Items, NoMemory, item};
use wat_name::Name;

/// The type of a column. The number is the greatest length of its texts, in bytes.
#[derive(Clone, Copy, Debug, PartialEq, Eq)]
pub enum Kind {
    /// Integers of 32 bits.
    Integer,
    Char(u16),
    Varchar(u16),
}

#[derive(Debug, Drop)]
pub struct Column {
    pub name: Name,
    pub kind: Kind,
    /// Whether its value may be Null.
    pub nullable: bool,
}

pub type Columns = Items<Column>;

/// Numbers of columns, counted from 0.
pub type Ordinals = Items<u8>;

/// A table: its number, its columns, and which of them are its primary key.
#[derive(Debug, Drop)]
pub struct TableDef {
    pub number: u32,
    pub name: Name,
    pub columns: Columns,
    pub key: Ordinals,
}

pub type TableDefs = Items<TableDef>;

/// An index beside the primary key. Numbers of a table's indexes count from 1.
#[derive(Debug, Drop)]
pub struct IndexDef {
    pub number: u8,
    pub table: u32,
    pub name: Name,
    pub columns: Ordinals,
}

pub type IndexDefs = Items<IndexDef>;

impl Column {
    /// Whether the value passes the column's tests by type, Null, range and length.
    pub fn takes(&self, value: &Value) -> bool
        ensures { result ≡ fits_column self.now value.now }
    {
        match value {
            Value::Null => self.nullable,
            Value::Int(n) => match self.kind {
                Kind::Integer => *n >= -2147483648 && *n <= 2147483647,
                Kind::Char(_) | Kind::Varchar(_) => false,
            },
            Value::Text(text) => match self.kind {
                Kind::Integer => false,
                Kind::Char(most) | Kind::Varchar(most) => text.as_str().len() <= most as usize,
            },
        }
    }
}

/// Whether the row has one value per column, and each passes the tests of its column.
pub fn fits(def: &TableDef, row: &Row) -> bool
    ensures { result ≡ fits def.now row.now }
{
    if def.columns.len() != row.len() {
        return false;
    }
    for i in 0..row.len() {
        if !item(&def.columns, i).takes(item(row, i)) {
            return false;
        }
    }
    true
}

fn value_in(alloc: Global, row: &[Value], column: u8) -> Result<Value, NoMemory>
    ensures { IfOk result (λ value. value ≡ value_in row.now column) }
{
    match row.get(column as usize) {
        Some(value) => value.copy(alloc),
        None => Ok(Value::Null),
    }
}

fn push_values(alloc: Global, row: &[Value], columns: &[u8], key: &mut Key) -> Result<(), NoMemory>
    ensures { OnOk result (key.new ≡ key.old ++ values_in row.now columns.now) }
{
    for column in columns {
        let value = value_in(alloc, row, *column)?;
        key.push(value)?;
    }
    Ok(())
}

impl TableDef {
    /// The primary key of a row. A value past the row's last one is Null.
    pub fn key_of(&self, alloc: Global, row: &Row) -> Result<Key, NoMemory>
        ensures { IfOk result (λ key. key ≡ key_of self.now row.now) }
    {
        let mut key = Key::new(alloc);
        push_values(alloc, row.as_slice(), self.key.as_slice(), &mut key)?;
        Ok(key)
    }
}

impl IndexDef {
    /// The key in the index of a row of its table: the values of its columns, followed by the
    /// primary key.
    pub fn key_of(&self, alloc: Global, table: &TableDef, row: &Row) -> Result<Key, NoMemory>
        ensures { IfOk result (λ key. key ≡ values_in row.now (self.now.columns ++ table.now.key)) }
    {
        let mut key = Key::new(alloc);
        push_values(alloc, row.as_slice(), self.columns.as_slice(), &mut key)?;
        push_values(alloc, row.as_slice(), table.key.as_slice(), &mut key)?;
        Ok(key)
    }
}

impl Copied for Kind {
    fn copy(&self, _alloc: Global) -> Result<Self, NoMemory> {
        Ok(*self)
    }
}

impl Copied for Column {
    fn copy(&self, alloc: Global) -> Result<Self, NoMemory> {
        let name = self.name.copy(alloc)?;
        Ok(Column {
            name,
            kind: self.kind,
            nullable: self.nullable,
        })
    }
}

impl Copied for TableDef {
    fn copy(&self, alloc: Global) -> Result<Self, NoMemory> {
        let name = self.name.copy(alloc)?;
        let columns = self.columns.copy(alloc)?;
        let key = self.key.copy(alloc)?;
        Ok(TableDef {
            number: self.number,
            name,
            columns,
            key,
        })
    }
}

impl Copied for IndexDef {
    fn copy(&self, alloc: Global) -> Result<Self, NoMemory> {
        let name = self.name.copy(alloc)?;
        let columns = self.columns.copy(alloc)?;
        Ok(IndexDef {
            number: self.number,
            table: self.table,
            name,
            columns,
        })
    }
}

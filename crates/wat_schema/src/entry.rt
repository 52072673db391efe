ghost use Rattle.std.specs.Prelude.{◌≡◌, ◌≤◌, ◌<◌, suc, [], ◌∷◌, ◌++◌, false, length, IfOk, OnOk, OnErr};
ghost use Rattle.std.specs.Option.{option_copied};
ghost use Rattle.wat_schema.specs.Catalog.{index_of, ordinal, repeats};
ghost use Rattle.wat_schema.specs.Definitions.{allows_index_here, bad_index, next_index, same_name};

use crate::rules::{are_bad_columns, may_be_null, width_at};
use indexmap::IndexSet;
use std::alloc::Global;
use std::marker::Model;
use wat_list::{Items, NoMemory};
use wat_value::{IndexDef, IndexDefs, Ordinals, TableDef};

/// A table of the schema with its indexes.
#[derive(Drop)]
pub struct Entry {
    def: TableDef,
    indexes: IndexDefs,
    /// The names of the columns, each at its number.
    columns: IndexSet<String>,
}

impl Model for Entry {
    ghost use Rattle.std.specs.Prelude.{map, string_bytes};
    ghost use Rattle.wat_schema.specs.Catalog.{Listing};
    ghost use Rattle.wat_schema.specs.Kept.{IsEntry};

    ghost Value = { Listing };

    ghost view = { λ e. record { def = e.def; indexes = e.indexes } };

    ghost invariant = { λ e. IsEntry (record { def = e.def; indexes = e.indexes }) (map string_bytes e.columns.keys) };
}

impl Entry {
    /// A table without indexes, whose columns are at most 64 and have names of their own.
    pub fn new(alloc: Global, def: TableDef) -> Result<Self, NoMemory>
        requires columns { length def.columns ≤ 64 }
        requires key { length def.key ≤ 16 }
        requires distinct { repeats same_name def.columns ≡ false }
        ensures { IfOk result (λ entry. entry ≡ record { def = def; indexes = [] }) }
    {
        let mut columns = IndexSet::new(alloc);
        for column in def.columns.as_slice() {
            let name = String::from_str(alloc, column.name.as_str())?;
            columns.insert(name)?;
        }
        Ok(Entry {
            def,
            indexes: Items::new(alloc),
            columns,
        })
    }

    pub fn def(&self) -> &TableDef
        ensures { result.now ≡ self.now.def }
    {
        &self.def
    }

    pub fn indexes(&self) -> &IndexDefs
        ensures { result.now ≡ self.now.indexes }
    {
        &self.indexes
    }

    pub fn index(&self, number: u8) -> Option<&IndexDef>
        ensures { option_copied result ≡ index_of self.now number }
    {
        self.indexes
            .as_slice()
            .iter()
            .find(|index| number == index.number)
    }

    pub fn column(&self, name: &str) -> Option<u8>
        ensures { result ≡ ordinal self.now.def name.now }
    {
        match self.columns.get_index_of(name) {
            Some(i) => Some(i as u8),
            None => None,
        }
    }

    /// The number of the table's next index.
    pub fn next_index(&self) -> u8
        ensures exact { result ≡ next_index self.now }
        ensures counted { result ≡ suc (length self.now.indexes) }
    {
        self.indexes.len() as u8 + 1
    }

    /// The smallest rule of indexes that one over these columns breaks.
    pub fn bad_index(&self, columns: &Ordinals) -> Option<u8>
        ensures { result ≡ bad_index self.now columns.now }
    {
        let columns = columns.as_slice();
        let all = self.def.columns.as_slice();
        if are_bad_columns(all, columns) {
            return Some(1);
        }
        if may_be_null(all, columns) {
            return Some(2);
        }
        if columns.is_empty() || columns.len() > 16 {
            return Some(3);
        }
        if width_at(all, columns) + width_at(all, self.def.key.as_slice()) > 900 {
            return Some(4);
        }
        if self.indexes.len() >= 8 {
            Some(5)
        } else {
            None
        }
    }

    /// Whether the index may be made of the table, where its name is free.
    pub fn allows_index(&self, index: &IndexDef) -> bool
        ensures { result ≡ allows_index_here index.now self.now }
    {
        index.number == self.next_index() && self.bad_index(&index.columns).is_none()
    }

    pub fn push_index(&mut self, index: IndexDef) -> Result<(), NoMemory>
        requires few { length self.old.indexes < 8 }
        requires next { index.number ≡ next_index self.old }
        ensures added { OnOk result (self.new ≡ record self.old { indexes = self.old.indexes ++ index ∷ [] }) }
        ensures kept { OnErr result (self.new ≡ self.old) }
        ensures def { self.new.def ≡ self.old.def }
    {
        self.indexes.push(index)?;
        Ok(())
    }
}

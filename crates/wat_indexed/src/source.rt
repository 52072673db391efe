ghost use Rattle.std.specs.Prelude.{◌≡◌, refl, IfOk, OnOk};
ghost use Rattle.std.proofs.Common.{◌∙◌};
ghost use Rattle.wat_schema.specs.Tables.{catalog_of, row_at};
ghost use Rattle.wat_indexed.specs.Indexed.{StandsFor, after_change};
ghost use Rattle.wat_indexed.specs.Sound.{is_sourced};

use std::alloc::Global;
use std::marker::Model;
use wat_indexes::Indexes;
use wat_list::{Copied, NoMemory};
use wat_schema::Schema;
use wat_tables::Tables;
use wat_value::{Bound, Change, Key, Place, Row, Value};
use wat_visits::{RowSource, SourceError};

/// The tables of a database in memory with their indexes.
///
/// After a want of memory in `change` they are not used again.
#[derive(Drop)]
pub struct IndexedTables {
    alloc: Global,
    tables: Tables,
    indexes: Indexes,
}

impl Model for IndexedTables {
    ghost use Rattle.wat_indexed.specs.Indexed.{Indexed};

    ghost Value = { Indexed };

    ghost view = { λ x. record { tables = x.tables; kept = x.indexes } };
}

fn copied(alloc: Global, values: &[Value]) -> Result<Row, NoMemory>
    ensures { IfOk result (λ row. row ≡ values.now) }
{
    let mut row = Row::new(alloc);
    for value in values {
        row.push(value.copy(alloc)?)?;
    }
    Ok(row)
}

fn row_of(alloc: Global, tables: &Tables, table: u32, key: &Key) -> Result<Option<Row>, NoMemory>
    ensures { IfOk result (λ row. row ≡ row_at tables.now table key.now) }
{
    match tables.row(table, key) {
        Some(values) => Ok(Some(copied(alloc, values)?)),
        None => Ok(None),
    }
}

impl IndexedTables {
    /// These tables with these indexes.
    pub fn of(alloc: Global, tables: Tables, indexes: Indexes) -> IndexedTables
        ensures { result ≡ record { tables = tables; kept = indexes } }
    {
        IndexedTables {
            alloc,
            tables,
            indexes,
        }
    }

    pub fn schema(&self) -> &Schema
        ensures { result.now ≡ catalog_of self.now.tables }
    {
        self.tables.schema()
    }

    pub fn tables(&self) -> &Tables
        ensures { result.now ≡ self.now.tables }
    {
        &self.tables
    }

    /// The tables alone.
    pub fn into_tables(self) -> Tables
        ensures { result ≡ self.tables }
    {
        let IndexedTables {
            alloc: _,
            tables,
            indexes: _,
        } = self;
        tables
    }

    /// Makes a change of a row.
    pub fn change(&mut self, change: &Change) -> Result<(), NoMemory>
        ensures { OnOk result (self.new ≡ after_change change.now self.old) }
    {
        self.tables.change(change)?;
        self.indexes.change(self.alloc, change)?;
        Ok(())
    }
}

impl RowSource for IndexedTables {
    ghost stands_for = { λ x s. StandsFor x s };

    ghost goes = { λ x y. y ≡ x };

    ghost failures = { λ _. 0 };

    ghost sound = { λ x s h. is_sourced x s h };

    ghost still = { λ x. refl };

    ghost goes_on = { λ x y z a b. b ∙ a };

    #[tactic(auto, using(crate::proofs::SourceLemmas::row_found))]
    fn row(&mut self, table: u32, key: &Key) -> Result<Option<Row>, SourceError> {
        match row_of(self.alloc, &self.tables, table, key) {
            Ok(row) => Ok(row),
            Err(_) => Err(SourceError::Memory),
        }
    }

    #[tactic(auto, using(crate::proofs::SourceLemmas::place_found))]
    fn successor(&mut self, table: u32, index: u8, from: &Bound) -> Result<Place, SourceError> {
        match self.indexes.successor(self.alloc, table, index, from) {
            Ok(place) => Ok(place),
            Err(_) => Err(SourceError::Memory),
        }
    }
}

ghost use Rattle.std.specs.Prelude.{◌≡◌, ◌==◌, [], IfOk};
ghost use Rattle.std.specs.List.{find};
ghost use Rattle.std.specs.Option.{option_copied, option_map_or};
ghost use Rattle.wat_value.specs.Indexes.{index_columns, key_columns};
ghost use Rattle.wat_schema.specs.Catalog.{listing_at, listing_named};
ghost use Rattle.wat_plan.specs.Plans.{source_listings};

use std::alloc::Global;
use std::marker::Model;
use wat_ast::Query;
use wat_list::{Copied, Items, NoMemory};
use wat_schema::Schema;
use wat_value::{IndexDef, IndexDefs, TableDef};

/// The table of a source, with its indexes. Contracts see it as the schema lists it.
#[derive(Drop)]
pub struct SourceTable {
    def: TableDef,
    indexes: IndexDefs,
}

pub type SourceTables = Items<SourceTable>;

impl Model for SourceTable {
    ghost use Rattle.wat_schema.specs.Catalog.{Listing};

    ghost Value = { Listing };

    ghost view = { λ t. record { def = t.def; indexes = t.indexes } };
}

impl SourceTable {
    pub fn def(&self) -> &TableDef
        ensures { result.now ≡ self.now.def }
    {
        &self.def
    }

    pub fn indexes(&self) -> &IndexDefs
        ensures { result.now ≡ self.now.indexes }
    {
        &self.indexes
    }

    fn index(&self, number: u8) -> Option<&IndexDef>
        ensures { option_copied result ≡ find (λ index. number == index.number) self.now.indexes }
    {
        self.indexes
            .as_slice()
            .iter()
            .find(|index| number == index.number)
    }

    fn own_columns(&self, number: u8) -> &[u8]
        ensures { result.now ≡ index_columns self.now.indexes number }
    {
        if number == 0 {
            return &[];
        }
        match self.index(number) {
            Some(index) => index.columns.as_slice(),
            None => &[],
        }
    }

    /// The columns of the keys of an index: its own, followed by those of the primary key, which is
    /// index 0.
    pub fn key_columns(&self, alloc: Global, index: u8) -> Result<Vec<u8>, NoMemory>
        ensures { IfOk result (λ columns. columns.items ≡ key_columns self.now.def self.now.indexes index) }
    {
        let mut columns = Vec::new(alloc);
        columns.extend_from_slice(self.own_columns(index))?;
        columns.extend_from_slice(self.def.key.as_slice())?;
        Ok(columns)
    }
}

// The indexes of the table with the number, of which there are at most 8.
fn indexes_of(alloc: Global, schema: &Schema, table: u32) -> Result<IndexDefs, NoMemory>
    ensures { IfOk result (λ indexes. indexes ≡ option_map_or (λ t. t.indexes) (listing_at schema.now table) []) }
{
    schema.catalog_law();
    let mut indexes = Items::new(alloc);
    for number in 1..9 {
        if let Some(index) = schema.index(table, number) {
            indexes.push(index.copy(alloc)?)?;
        }
    }
    Ok(indexes)
}

fn table_named(alloc: Global, schema: &Schema, name: &str) -> Result<Option<SourceTable>, NoMemory>
    ensures { IfOk result (λ table. table ≡ listing_named schema.now name.now) }
{
    schema.catalog_law();
    let Some(number) = schema.table(name) else {
        return Ok(None);
    };
    let Some(def) = schema.def(number) else {
        return Ok(None);
    };
    let def = def.copy(alloc)?;
    let indexes = indexes_of(alloc, schema, number)?;
    Ok(Some(SourceTable { def, indexes }))
}

/// The tables of the sources as written.
pub(crate) fn source_tables(
    alloc: Global,
    query: &Query,
    schema: &Schema,
) -> Result<SourceTables, NoMemory>
    ensures { IfOk result (λ tables. tables ≡ source_listings schema.now query.now) }
{
    let mut tables = Items::new(alloc);
    for source in query.sources.as_slice() {
        if let Some(table) = table_named(alloc, schema, source.table.as_str())? {
            tables.push(table)?;
        }
    }
    Ok(tables)
}

ghost use Rattle.std.specs.Prelude.{◌≡◌, IfOk};
ghost use Rattle.wat_scope.specs.Joining.{joined};
ghost use Rattle.wat_scope.specs.Scope.{query_scope, table_scope, columns_of, column_in, is_meant, meant_column, spot_in, found_among, found, visible};

use std::alloc::Global;
use wat_ast::{Name, Query, Source};
use wat_list::{Copied, Items, NoMemory};
use wat_schema::Schema;
use wat_value::Column;

/// A source that columns can be of: its visible name, and the number of its table, if that stands.
#[derive(Drop)]
pub struct Visible {
    pub name: Name,
    pub table: Option<u32>,
}

pub type Scope = Items<Visible>;

/// Where a column is found: nowhere, as the column of that number of the source of that number, or in several sources.
#[derive(Clone, Copy)]
pub enum Found {
    Nowhere,
    At { source: usize, column: u8 },
    Several,
}

#[tactic(auto, unfolding(crate::specs::Scope::visible))]
fn visible_source(alloc: Global, schema: &Schema, source: &Source) -> Result<Visible, NoMemory>
    ensures { IfOk result (λ v. v ≡ visible schema.now source.now) }
{
    let name = match &source.alias {
        Some(alias) => alias.copy(alloc)?,
        None => source.table.copy(alloc)?,
    };
    let table = schema.table(source.table.as_str());
    Ok(Visible { name, table })
}

/// The sources of a query, as they are written.
pub fn query_scope(alloc: Global, schema: &Schema, query: &Query) -> Result<Scope, NoMemory>
    ensures { IfOk result (λ scope. scope ≡ query_scope schema.now query.now) }
{
    let mut scope = Items::new(alloc);
    for source in query.sources.as_slice() {
        scope.push(visible_source(alloc, schema, source)?)?;
    }
    Ok(scope)
}

/// One table, under its own name.
pub fn table_scope(alloc: Global, schema: &Schema, table: &Name) -> Result<Scope, NoMemory>
    ensures { IfOk result (λ scope. scope ≡ table_scope schema.now table.now) }
{
    let mut scope = Items::new(alloc);
    let name = table.copy(alloc)?;
    let table = schema.table(name.as_str());
    scope.push(Visible { name, table })?;
    Ok(scope)
}

/// The columns of a table, and none where it doesn't stand.
pub fn columns_of(schema: &Schema, table: Option<u32>) -> &[Column]
    ensures { result.now ≡ columns_of schema.now table }
{
    match table {
        Some(number) => match schema.def(number) {
            Some(def) => def.columns.as_slice(),
            None => &[],
        },
        None => &[],
    }
}

/// The number of the table's column with the name.
pub fn column_in(schema: &Schema, table: Option<u32>, name: &Name) -> Option<u8>
    ensures { result ≡ column_in schema.now table name.now }
{
    match table {
        Some(number) => schema.column(number, name.as_str()),
        None => None,
    }
}

fn is_meant(qualifier: &Option<Name>, source: &Visible) -> bool
    ensures { result ≡ is_meant qualifier.now source.now }
{
    match qualifier {
        None => true,
        Some(qualifier) => source.name.as_str() == qualifier.as_str(),
    }
}

fn meant_column(
    schema: &Schema,
    qualifier: &Option<Name>,
    name: &Name,
    source: &Visible,
) -> Option<u8>
    ensures { result ≡ meant_column schema.now (qualifier.now, name.now) source.now }
{
    if is_meant(qualifier, source) {
        column_in(schema, source.table, name)
    } else {
        None
    }
}

impl Found {
    // What is found where the source of that number has that column too.
    fn and(self, source: usize, column: Option<u8>) -> Found
        ensures { result ≡ joined self (found_among (spot_in source column)) }
    {
        let Some(column) = column else {
            return self;
        };
        match self {
            Found::Nowhere => Found::At { source, column },
            Found::At { .. } | Found::Several => Found::Several,
        }
    }
}

/// Where a column is found, by its qualifier, if it has one, and its name.
pub fn find(schema: &Schema, scope: &Scope, qualifier: &Option<Name>, name: &Name) -> Found
    ensures { result ≡ found schema.now scope.now (qualifier.now, name.now) }
{
    let mut all = Found::Nowhere;
    for (i, source) in scope.as_slice().iter().enumerate() {
        all = all.and(i, meant_column(schema, qualifier, name, source));
    }
    all
}

ghost use Rattle.std.specs.Prelude.{◌≡◌, ◌++◌, option_to_list, IfOk, OnOk};
ghost use Rattle.std.specs.Option.{option_copied};
ghost use Rattle.wat_meaning.specs.Meaning.{answer, def_called, source_answer, source_defs, values_row};

use crate::values::values;
use std::alloc::Global;
use wat_ast::{Expr, InsertSource, Name, Query};
use wat_group::{Finished, finish};
use wat_list::{Copied, Items, NoMemory};
use wat_schema::Schema;
use wat_value::{Combinations, TableDef, TableDefs};

fn def_called<'a>(schema: &'a Schema, name: &Name) -> Option<&'a TableDef>
    ensures { option_copied result ≡ def_called schema.now name.now }
{
    let number = schema.table(name.as_str())?;
    schema.def(number)
}

fn add_def(
    alloc: Global,
    schema: &Schema,
    name: &Name,
    defs: &mut TableDefs,
) -> Result<(), NoMemory>
    ensures { OnOk result (defs.new ≡ defs.old ++ option_to_list (def_called schema.now name.now)) }
{
    match def_called(schema, name) {
        Some(def) => defs.push(def.copy(alloc)?),
        None => Ok(()),
    }
}

// The definitions of the sources as written.
fn source_defs(alloc: Global, schema: &Schema, query: &Query) -> Result<TableDefs, NoMemory>
    ensures { IfOk result (λ defs. defs ≡ source_defs schema.now query.now) }
{
    let mut defs = Items::new(alloc);
    for source in query.sources.as_slice() {
        add_def(alloc, schema, &source.table, &mut defs)?;
    }
    Ok(defs)
}

/// The answer of a query over the combinations that passed.
pub fn answer(
    alloc: Global,
    schema: &Schema,
    query: &Query,
    met: &Combinations,
) -> Result<Finished, NoMemory>
    ensures { IfOk result (λ found. found ≡ answer schema.now query.now met.now) }
{
    let defs = source_defs(alloc, schema, query)?;
    finish(alloc, query, &defs, met)
}

fn values_row(alloc: Global, exprs: &[Expr]) -> Result<Finished, NoMemory>
    ensures { IfOk result (λ found. found ≡ values_row exprs.now) }
{
    let Some(row) = values(alloc, exprs, &Items::new(alloc))? else {
        return Ok(Finished::Arithmetic);
    };
    let mut rows = Items::new(alloc);
    rows.push(row)?;
    Ok(Finished::Rows(rows))
}

/// The lists of values that INSERT takes: that of VALUES, or those of its query in the query's order.
pub fn source_answer(
    alloc: Global,
    schema: &Schema,
    source: &InsertSource,
    met: &Combinations,
) -> Result<Finished, NoMemory>
    ensures { IfOk result (λ found. found ≡ source_answer schema.now source.now met.now) }
{
    match source {
        InsertSource::Values(exprs) => values_row(alloc, exprs.as_slice()),
        InsertSource::Answer(query) => answer(alloc, schema, query, met),
    }
}

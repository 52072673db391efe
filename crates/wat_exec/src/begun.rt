ghost use Rattle.std.specs.Prelude.{◌≡◌, IfOk};
ghost use Rattle.std.specs.Option.{option_and_then, option_copied, option_map_or};
ghost use Rattle.wat_meaning.specs.Meaning.{rows_where, scanned};
ghost use Rattle.wat_plan.specs.Plans.{plan_of};
ghost use Rattle.wat_scans.specs.Running.{no_plan, target_of};
ghost use Rattle.wat_exec.specs.Stepping.{target_in, writes_rows};

use std::alloc::Global;
use wat_ast::{Expr, InsertSource, Name, Query, SelectItems, Source, Statement};
use wat_list::{Copied, Items, NoMemory};
use wat_plan::{Plan, SourceTable};
use wat_schema::Schema;

// SELECT * FROM table WHERE ..
fn rows_where(alloc: Global, table: &Name, filter: &Option<Expr>) -> Result<Query, NoMemory>
    ensures { IfOk result (λ q. q ≡ rows_where table.now filter.now) }
{
    let mut sources = Items::new(alloc);
    sources.push(Source {
        table: table.copy(alloc)?,
        alias: None,
    })?;
    Ok(Query {
        distinct: false,
        items: SelectItems::Star,
        sources,
        filter: filter.copy(alloc)?,
        group: Items::new(alloc),
        having: None,
        order: Items::new(alloc),
    })
}

// The query that the statement scans.
fn scanned(alloc: Global, statement: &Statement) -> Result<Option<Query>, NoMemory>
    ensures { IfOk result (λ q. q ≡ scanned statement.now) }
{
    match statement {
        Statement::Select(query) => Ok(Some(query.copy(alloc)?)),
        Statement::Insert {
            table: _,
            columns: _,
            source: InsertSource::Answer(query),
        } => Ok(Some(query.copy(alloc)?)),
        Statement::Update {
            table,
            sets: _,
            filter,
        } => Ok(Some(rows_where(alloc, table, filter)?)),
        Statement::Delete { table, filter } => Ok(Some(rows_where(alloc, table, filter)?)),
        _ => Ok(None),
    }
}

fn no_query(alloc: Global) -> Query
    ensures { result ≡ no_plan.query }
{
    Query {
        distinct: false,
        items: SelectItems::Star,
        sources: Items::new(alloc),
        filter: None,
        group: Items::new(alloc),
        having: None,
        order: Items::new(alloc),
    }
}

/// The plan of what the statement scans.
#[tactic(auto, using(crate::proofs::BegunLemmas::no_plan_is))]
pub(crate) fn plan_for(
    alloc: Global,
    statement: &Statement,
    schema: &Schema,
) -> Result<Plan, NoMemory>
    ensures { IfOk result (λ p. p ≡ option_map_or (plan_of schema.now) (scanned statement.now) no_plan) }
{
    match scanned(alloc, statement)? {
        Some(query) => Plan::of(alloc, &query, schema),
        None => Plan::of(alloc, &no_query(alloc), schema),
    }
}

fn plan_of_table(alloc: Global, table: &Name, schema: &Schema) -> Result<Plan, NoMemory>
    ensures { IfOk result (λ p. p ≡ plan_of schema.now (rows_where table.now None)) }
{
    let query = rows_where(alloc, table, &None)?;
    Plan::of(alloc, &query, schema)
}

/// The plan of the table that the statement writes, which has its definition and its indexes.
#[tactic(auto, using(crate::proofs::BegunLemmas::target_is))]
pub(crate) fn written(
    alloc: Global,
    statement: &Statement,
    schema: &Schema,
) -> Result<Option<Plan>, NoMemory>
    ensures { IfOk result (λ p. target_in p ≡ target_of schema.now statement.now) }
{
    match statement {
        Statement::Insert {
            table,
            columns: _,
            source: _,
        } => Ok(Some(plan_of_table(alloc, table, schema)?)),
        Statement::Update {
            table,
            sets: _,
            filter: _,
        } => Ok(Some(plan_of_table(alloc, table, schema)?)),
        Statement::Delete { table, filter: _ } => Ok(Some(plan_of_table(alloc, table, schema)?)),
        _ => Ok(None),
    }
}

/// The table that is written.
pub(crate) fn target(written: &Option<Plan>) -> Option<&SourceTable>
    ensures { option_copied result ≡ target_in written.now }
{
    match written {
        Some(plan) => plan.sources().get(0),
        None => None,
    }
}

/// Whether the statement writes the rows that it scans.
pub(crate) fn writes_rows(statement: &Statement) -> bool
    ensures { result ≡ writes_rows statement.now }
{
    matches!(
        statement,
        Statement::Update { .. } | Statement::Delete { .. }
    )
}

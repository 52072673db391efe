ghost use Rattle.std.specs.Prelude.{◌≡◌, [], map, option_to_list, Some, IfOk};
ghost use Rattle.std.specs.Option.{option_map_or};
ghost use Rattle.wat_value.specs.declared.change.Act.TheVariants.{OnSchema};
ghost use Rattle.wat_ast.specs.declared.statement.Statement.TheVariants as statement;
ghost use Rattle.wat_schema.specs.declared.refusal.Refusal.TheVariants.{NoTable};
ghost use Rattle.wat_schema.specs.Tables.{catalog_of};
ghost use Rattle.wat_names.specs.Refusals.{first};
ghost use Rattle.wat_rules.specs.Changes.{IsAllowed, change_of};
ghost use Rattle.wat_meaning.specs.Meaning.{meaning_checked, passed, refusal_meaning, source_query};
ghost use Rattle.wat_serial.specs.Changing.{delete_acts, deleted_in, insert_acts, insert_refusals, inserted_in, update_acts, updated_in, with_acts};

use crate::duplicates::first_duplicate;
use std::alloc::Global;
use wat_ast::{Expr, InsertSource, Name, Names, Query, SetItem, Statement};
use wat_group::Finished;
use wat_list::{Copied, Items, NoMemory};
use wat_made::{answer, first_fault, given_rows, rows_after, sole_row, source_answer};
use wat_meaning::{Meaning, Reply};
use wat_passed::{passed, rows_passed};
use wat_rules::change_of;
use wat_schema::Refusal;
use wat_tables::{StoredTable, Tables};
use wat_value::{Act, Acts, Change, Combination, Combinations, Row, TableDef};

/// A refusal makes no acts.
pub(crate) fn refused(alloc: Global, refusal: Refusal) -> Meaning
    ensures { result ≡ refusal_meaning refusal }
{
    Meaning {
        answer: Reply::Refused(refusal),
        acts: Items::new(alloc),
    }
}

fn no_table(alloc: Global, name: &Name) -> Result<Meaning, NoMemory>
    ensures { IfOk result (λ m. m ≡ refusal_meaning (NoTable name.now)) }
{
    let name = name.copy(alloc)?;
    Ok(refused(alloc, Refusal::NoTable { name }))
}

// ---- SELECT

#[tactic(auto, unfolding(wat_meaning::specs::Meaning::meaning_checked, wat_meaning::specs::Meaning::made, wat_meaning::specs::Meaning::done))]
pub(crate) fn select(alloc: Global, tables: &Tables, query: &Query) -> Result<Meaning, NoMemory>
    ensures { IfOk result (λ m. m ≡ meaning_checked tables.now (statement.Select query.now)) }
{
    let Some(met) = passed(alloc, tables, query)? else {
        return Ok(refused(alloc, Refusal::Arithmetic));
    };
    match answer(alloc, tables.schema(), query, &met)? {
        Finished::Arithmetic => Ok(refused(alloc, Refusal::Arithmetic)),
        Finished::Rows(rows) => Ok(Meaning {
            answer: Reply::Rows(rows),
            acts: Items::new(alloc),
        }),
    }
}

// ---- INSERT

fn source_met(
    alloc: Global,
    tables: &Tables,
    source: &InsertSource,
) -> Result<Option<Combinations>, NoMemory>
    ensures { IfOk result (λ met. met ≡ option_map_or (passed tables.now) (source_query source.now) (Some [])) }
{
    match source {
        InsertSource::Values(_) => Ok(Some(Items::new(alloc))),
        InsertSource::Answer(query) => passed(alloc, tables, query),
    }
}

fn insert_refusal(
    alloc: Global,
    table: &StoredTable,
    rows: &[Row],
) -> Result<Option<Refusal>, NoMemory>
    ensures { IfOk result (λ refusal. refusal ≡ first (insert_refusals table.now rows.now)) }
{
    if let Some(fault) = first_fault(alloc, table.def(), rows)? {
        return Ok(Some(fault));
    }
    match first_duplicate(alloc, table, rows)? {
        Some(key) => Ok(Some(Refusal::Duplicate { key })),
        None => Ok(None),
    }
}

fn insert_acts(alloc: Global, table: u32, rows: Vec<Row>) -> Result<Acts, NoMemory>
    ensures { IfOk result (λ acts. acts ≡ insert_acts table rows.items) }
{
    let mut acts = Items::new(alloc);
    for row in rows {
        acts.push(Act::OnRow(Change::Insert { table, row }))?;
    }
    Ok(acts)
}

fn inserted(
    alloc: Global,
    table: &StoredTable,
    names: &Option<Names>,
    values: Finished,
) -> Result<Meaning, NoMemory>
    ensures { IfOk result (λ m. m ≡ inserted_in table.now names.now values) }
{
    let values = match values {
        Finished::Rows(values) => values,
        Finished::Arithmetic => return Ok(refused(alloc, Refusal::Arithmetic)),
    };
    let def = table.def();
    let rows = given_rows(alloc, def, names, values.as_slice())?;
    if let Some(refusal) = insert_refusal(alloc, table, rows.as_slice())? {
        return Ok(refused(alloc, refusal));
    }
    let answer = Reply::Inserted(rows.len() as u64);
    let acts = insert_acts(alloc, def.number, rows)?;
    Ok(Meaning { answer, acts })
}

pub(crate) fn insert(
    alloc: Global,
    tables: &Tables,
    name: &Name,
    names: &Option<Names>,
    source: &InsertSource,
) -> Result<Meaning, NoMemory>
    ensures { IfOk result (λ m. m ≡ meaning_checked tables.now (statement.Insert name.now names.now source.now)) }
{
    tables.tables_law();
    let Some(met) = source_met(alloc, tables, source)? else {
        return Ok(refused(alloc, Refusal::Arithmetic));
    };
    let Some(table) = tables.table(name.as_str()) else {
        return no_table(alloc, name);
    };
    let values = source_answer(alloc, tables.schema(), source, &met)?;
    inserted(alloc, table, names, values)
}

// ---- UPDATE

fn update_acts(
    alloc: Global,
    table: u32,
    met: &[Combination],
    after: &[Row],
) -> Result<Acts, NoMemory>
    ensures { IfOk result (λ acts. acts ≡ update_acts table met.now after.now) }
{
    let mut acts = Items::new(alloc);
    for (rows, after) in met.iter().zip(after) {
        let before = sole_row(alloc, rows)?;
        let after = after.copy(alloc)?;
        acts.push(Act::OnRow(Change::Update {
            table,
            before,
            after,
        }))?;
    }
    Ok(acts)
}

fn updated(
    alloc: Global,
    def: &TableDef,
    sets: &[SetItem],
    met: &[Combination],
) -> Result<Meaning, NoMemory>
    ensures { IfOk result (λ m. m ≡ updated_in def.now sets.now met.now) }
{
    let Some(after) = rows_after(alloc, def, sets, met)? else {
        return Ok(refused(alloc, Refusal::Arithmetic));
    };
    if let Some(fault) = first_fault(alloc, def, after.as_slice())? {
        return Ok(refused(alloc, fault));
    }
    let acts = update_acts(alloc, def.number, met, after.as_slice())?;
    Ok(Meaning {
        answer: Reply::Updated(met.len() as u64),
        acts,
    })
}

pub(crate) fn update(
    alloc: Global,
    tables: &Tables,
    name: &Name,
    sets: &[SetItem],
    filter: &Option<Expr>,
) -> Result<Meaning, NoMemory>
    ensures { IfOk result (λ m. m ≡ meaning_checked tables.now (statement.Update name.now sets.now filter.now)) }
{
    tables.tables_law();
    let Some(met) = rows_passed(alloc, tables, name, filter)? else {
        return Ok(refused(alloc, Refusal::Arithmetic));
    };
    let Some(table) = tables.table(name.as_str()) else {
        return no_table(alloc, name);
    };
    updated(alloc, table.def(), sets, met.as_slice())
}

// ---- DELETE

fn delete_acts(alloc: Global, table: u32, met: &[Combination]) -> Result<Acts, NoMemory>
    ensures { IfOk result (λ acts. acts ≡ delete_acts table met.now) }
{
    let mut acts = Items::new(alloc);
    for rows in met {
        let before = sole_row(alloc, rows)?;
        acts.push(Act::OnRow(Change::Delete { table, before }))?;
    }
    Ok(acts)
}

fn deleted(alloc: Global, def: &TableDef, met: &[Combination]) -> Result<Meaning, NoMemory>
    ensures { IfOk result (λ m. m ≡ deleted_in def.now met.now) }
{
    let acts = delete_acts(alloc, def.number, met)?;
    Ok(Meaning {
        answer: Reply::Deleted(met.len() as u64),
        acts,
    })
}

pub(crate) fn delete(
    alloc: Global,
    tables: &Tables,
    name: &Name,
    filter: &Option<Expr>,
) -> Result<Meaning, NoMemory>
    ensures { IfOk result (λ m. m ≡ meaning_checked tables.now (statement.Delete name.now filter.now)) }
{
    tables.tables_law();
    let Some(met) = rows_passed(alloc, tables, name, filter)? else {
        return Ok(refused(alloc, Refusal::Arithmetic));
    };
    let Some(table) = tables.table(name.as_str()) else {
        return no_table(alloc, name);
    };
    deleted(alloc, table.def(), met.as_slice())
}

// ---- CREATE and DROP

/// The schema change of a CREATE or DROP that is allowed, with this reply.
pub(crate) fn alter(
    alloc: Global,
    tables: &Tables,
    statement: &Statement,
    reply: Reply,
) -> Result<Meaning, NoMemory>
    requires { IsAllowed (catalog_of tables.now) statement.now }
    ensures { IfOk result (λ m. m ≡ with_acts reply (map OnSchema (option_to_list (change_of (catalog_of tables.now) statement.now)))) }
{
    let change = change_of(alloc, statement, tables.schema())?;
    let mut acts = Items::new(alloc);
    acts.push(Act::OnSchema(change))?;
    Ok(Meaning {
        answer: reply,
        acts,
    })
}

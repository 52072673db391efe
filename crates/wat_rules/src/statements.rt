ghost use Rattle.std.specs.Prelude.{◌≡◌, IfOk};
ghost use Rattle.wat_names.specs.Refusals.{first};
ghost use Rattle.wat_typing.specs.Rules.{given_rule};
ghost use Rattle.wat_rules.specs.Rules.{table_rule, index_rule, wrong_type, bad_table_refusals, bad_index_refusals, rule_refusals};

use crate::changes::{columns_of_elements, keys_of_elements, numbers_named};
use std::alloc::Global;
use wat_ast::{Element, InsertSource, Name, Names, Statement};
use wat_list::NoMemory;
use wat_schema::{Refusal, Schema};
use wat_typing::{answer_given, delete_rule, query_rule, update_rule, values_given};

#[tactic(auto, unfolding(crate::specs::Rules::table_rule))]
fn table_rule(alloc: Global, schema: &Schema, elements: &[Element]) -> Result<Option<u8>, NoMemory>
    ensures { IfOk result (λ rule. rule ≡ table_rule schema.now elements.now) }
{
    let columns = columns_of_elements(alloc, elements)?;
    let keys = keys_of_elements(alloc, elements)?;
    let rule = schema.bad_table(&columns, &keys)?;
    Ok(rule)
}

#[tactic(auto, unfolding(crate::specs::Rules::index_rule))]
fn index_rule(
    alloc: Global,
    schema: &Schema,
    table: &Name,
    columns: &[Name],
) -> Result<Option<u8>, NoMemory>
    ensures { IfOk result (λ rule. rule ≡ index_rule schema.now table.now columns.now) }
{
    let Some(number) = schema.table(table.as_str()) else {
        return Ok(None);
    };
    let numbers = numbers_named(alloc, schema, number, columns)?;
    Ok(schema.bad_index(number, &numbers))
}

fn given_rule(
    alloc: Global,
    schema: &Schema,
    table: &Name,
    columns: &Option<Names>,
    source: &InsertSource,
) -> Result<Option<u8>, NoMemory>
    ensures { IfOk result (λ rule. rule ≡ given_rule schema.now table.now columns.now source.now) }
{
    match source {
        InsertSource::Values(values) => values_given(
            alloc,
            schema,
            table,
            columns,
            values.as_slice(),
        ),
        InsertSource::Answer(query) => answer_given(alloc, schema, table, columns, query),
    }
}

fn wrong_type(rule: Option<u8>) -> Option<Refusal>
    ensures { result ≡ first (wrong_type rule) }
{
    match rule {
        None => None,
        Some(rule) => Some(Refusal::WrongType { rule }),
    }
}

fn bad_table(rule: Option<u8>) -> Option<Refusal>
    ensures { result ≡ first (bad_table_refusals rule) }
{
    match rule {
        None => None,
        Some(rule) => Some(Refusal::BadTable { rule }),
    }
}

fn bad_index(rule: Option<u8>) -> Option<Refusal>
    ensures { result ≡ first (bad_index_refusals rule) }
{
    match rule {
        None => None,
        Some(rule) => Some(Refusal::BadIndex { rule }),
    }
}

/// The refusal of the smallest broken rule of a statement whose columns are in their places.
pub fn rule_refusal(
    alloc: Global,
    schema: &Schema,
    statement: &Statement,
) -> Result<Option<Refusal>, NoMemory>
    ensures { IfOk result (λ refusal. refusal ≡ first (rule_refusals schema.now statement.now)) }
{
    match statement {
        Statement::CreateTable { elements, .. } => {
            let rule = table_rule(alloc, schema, elements.as_slice())?;
            Ok(bad_table(rule))
        }
        Statement::CreateIndex { table, columns, .. } => {
            let rule = index_rule(alloc, schema, table, columns.as_slice())?;
            Ok(bad_index(rule))
        }
        Statement::Insert {
            table,
            columns,
            source,
        } => {
            let rule = given_rule(alloc, schema, table, columns, source)?;
            Ok(wrong_type(rule))
        }
        Statement::Update {
            table,
            sets,
            filter,
        } => {
            let rule = update_rule(alloc, schema, table, sets.as_slice(), filter)?;
            Ok(wrong_type(rule))
        }
        Statement::Delete { table, filter } => {
            let rule = delete_rule(alloc, schema, table, filter)?;
            Ok(wrong_type(rule))
        }
        Statement::Select(query) => {
            let rule = query_rule(alloc, schema, query)?;
            Ok(wrong_type(rule))
        }
        _ => Ok(None),
    }
}

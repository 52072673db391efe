// The statements of a transaction, as text.
ghost use Rattle.std.specs.Prelude.{◌≡◌, ◌++◌, OnOk};
ghost use Rattle.std.specs.List.{flat_map, list_any};
ghost use Rattle.std.specs.Option.{option_to_list};
ghost use Rattle.wat_script_texts.specs.Texts.{ended_text, script_text};
ghost use Rattle.wat_script_texts.specs.Written.{alters};
ghost use Rattle.wat_written.specs.Written.{statement_of as statement_in};
ghost use Rattle.wat_translate.specs.Writing.{statements_by, transaction_by};

use std::alloc::Global;
use wat_ast::Statement;
use wat_list::NoMemory;
use wat_schema::Schema;
use wat_spell::spell;
use wat_value::Act;
use wat_written::statement_of;

/// Adds the statement, `;` and a line feed.
fn push_ended(statement: &Statement, out: &mut Vec<u8>) -> Result<(), NoMemory>
    ensures { OnOk result (out.new.items ≡ out.old.items ++ ended_text statement.now) }
{
    spell(statement, out)?;
    out.extend_from_slice(&[59, 10])
}

/// Adds the statement that writes the act, if there is one.
fn push_act(alloc: Global, schema: &Schema, act: &Act, out: &mut Vec<u8>) -> Result<(), NoMemory>
    ensures { OnOk result (out.new.items ≡ out.old.items ++ flat_map ended_text (option_to_list (statement_in schema.now act.now))) }
{
    match statement_of(alloc, schema, act)? {
        Some(statement) => push_ended(&statement, out),
        None => Ok(()),
    }
}

fn push_acts(
    alloc: Global,
    schema: &Schema,
    acts: &[Act],
    out: &mut Vec<u8>,
) -> Result<(), NoMemory>
    ensures { OnOk result (out.new.items ≡ out.old.items ++ script_text (statements_by schema.now acts.now)) }
{
    for act in acts {
        push_act(alloc, schema, act, out)?;
    }
    Ok(())
}

/// Whether one of the acts changes the schema.
fn has_schema_change(acts: &[Act]) -> bool
    ensures { result ≡ list_any alters acts.now }
{
    acts.iter().any(|act| match act {
        Act::OnSchema(_) => true,
        Act::OnRow(_) => false,
    })
}

/// Adds the statements of the transaction, a line each, with COMMIT behind them unless it changes the schema.
pub(crate) fn push_transaction(
    alloc: Global,
    schema: &Schema,
    acts: &[Act],
    out: &mut Vec<u8>,
) -> Result<(), NoMemory>
    ensures { OnOk result (out.new.items ≡ out.old.items ++ script_text (transaction_by schema.now acts.now)) }
{
    push_acts(alloc, schema, acts, out)?;
    if has_schema_change(acts) {
        return Ok(());
    }
    push_ended(&Statement::Commit, out)
}

ghost use Rattle.std.specs.Prelude.{◌≡◌, true, MatchResult, Ok, Err, IfOk};
ghost use Rattle.wat_names.specs.Refusals.{first};
ghost use Rattle.wat_names.specs.Columns.{name_refusals};
ghost use Rattle.wat_rules.specs.Changes.{changes_schema, IsAllowed};
ghost use Rattle.wat_rules.specs.Check.{check, IfRefused};

use crate::statements::rule_refusal;
use std::alloc::Global;
use wat_ast::Statement;
use wat_list::NoMemory;
use wat_names::{assigned_key, columns_refusal, placed_statement, source_refusal, table_refusal};
use wat_schema::{Refusal, Schema};

/// Why a statement is not checked through: it is refused, or memory is wanted.
#[derive(Debug, Drop)]
pub enum CheckRefusal {
    Refused(Refusal),
    Memory,
}

// The first refusal of a name.
fn name_refusal(
    alloc: Global,
    schema: &Schema,
    statement: &Statement,
) -> Result<Option<Refusal>, NoMemory>
    ensures { IfOk result (λ refusal. refusal ≡ first (name_refusals schema.now statement.now)) }
{
    if let Some(refusal) = table_refusal(alloc, schema, statement)? {
        return Ok(Some(refusal));
    }
    if let Some(refusal) = source_refusal(alloc, schema, statement)? {
        return Ok(Some(refusal));
    }
    if let Some(refusal) = columns_refusal(alloc, schema, statement)? {
        return Ok(Some(refusal));
    }
    assigned_key(alloc, schema, statement)
}

fn checked(
    alloc: Global,
    schema: &Schema,
    statement: &Statement,
) -> Result<Result<Statement, Refusal>, NoMemory>
    ensures { IfOk result (λ answer. answer ≡ check schema.now statement.now) }
{
    if let Some(refusal) = name_refusal(alloc, schema, statement)? {
        return Ok(Err(refusal));
    }
    let placed = placed_statement(alloc, schema, statement)?;
    if let Some(refusal) = rule_refusal(alloc, schema, &placed)? {
        return Ok(Err(refusal));
    }
    Ok(Ok(placed))
}

/// The statement with each column in its expressions replaced by its place, or the first refusal.
///
/// The names that INSERT and SET list stay as they are. A column of a source past number 4294967295
/// is answered by want of memory, since a tree has no place for it.
#[tactic(auto, using(crate::proofs::AgainLemmas::checked_again, crate::proofs::ChangeLemmas::checked_change))]
pub fn check(
    alloc: Global,
    statement: &Statement,
    schema: &Schema,
) -> Result<Statement, CheckRefusal>
    ensures checked { MatchResult result (λ placed. check schema.now statement.now ≡ Ok placed) (IfRefused (λ refusal. check schema.now statement.now ≡ Err refusal)) }
    // What is let through stays as it is where it is checked again.
    ensures again { IfOk result (λ placed. check schema.now placed ≡ Ok placed) }
    // The schema allows the change of a CREATE or DROP that is let through.
    ensures change { IfOk result (λ placed. changes_schema placed ≡ true → IsAllowed schema.now placed) }
{
    match checked(alloc, schema, statement) {
        Ok(Ok(placed)) => Ok(placed),
        Ok(Err(refusal)) => Err(CheckRefusal::Refused(refusal)),
        Err(_) => Err(CheckRefusal::Memory),
    }
}

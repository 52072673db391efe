//! Reads operators and columns, which have no expression inside them.

ghost use Rattle.std.specs.Prelude.{◌≡◌, ℕ};
ghost use Rattle.wat_grammar.specs.Phrase.{read_within};
ghost use Rattle.wat_syntax.specs.Sql.{sql};
ghost use Rattle.wat_syntax.specs.Sql as spec;
ghost use Rattle.wat_cursor.specs.Reading.{Reads};
ghost use Rattle.wat_expressions.specs.Applied.{read_applied};

use crate::parts::is_null;
use std::alloc::Global;
use wat_ast::{AggregateKind, BinaryOp, Expr};
use wat_cursor::{Cursor, Fault};
use wat_syntax::Kind;

#[tactic(auto, unfolding(wat_syntax::specs::Sql::term_operator))]
pub fn term_operator(cursor: &mut Cursor<'_>) -> Result<BinaryOp, Fault>
    ensures { (levels : ℕ) → Reads (read_within sql levels spec.term_operator cursor.old) result cursor.new }
{
    if cursor.sees(Kind::Star) {
        return cursor.sign(Kind::Star, BinaryOp::Multiply);
    }
    cursor.sign(Kind::Slash, BinaryOp::Divide)
}

#[tactic(auto, unfolding(wat_syntax::specs::Sql::sum_operator))]
pub fn sum_operator(cursor: &mut Cursor<'_>) -> Result<BinaryOp, Fault>
    ensures { (levels : ℕ) → Reads (read_within sql levels spec.sum_operator cursor.old) result cursor.new }
{
    if cursor.sees(Kind::Plus) {
        return cursor.sign(Kind::Plus, BinaryOp::Add);
    }
    if cursor.sees(Kind::Minus) {
        return cursor.sign(Kind::Minus, BinaryOp::Subtract);
    }
    cursor.sign(Kind::Concat, BinaryOp::Concat)
}

#[tactic(auto, unfolding(wat_syntax::specs::Sql::comparison))]
pub fn comparison(cursor: &mut Cursor<'_>) -> Result<BinaryOp, Fault>
    ensures { (levels : ℕ) → Reads (read_within sql levels spec.comparison cursor.old) result cursor.new }
{
    if cursor.sees(Kind::Equal) {
        return cursor.sign(Kind::Equal, BinaryOp::Equal);
    }
    if cursor.sees(Kind::Unequal) {
        return cursor.sign(Kind::Unequal, BinaryOp::Unequal);
    }
    if cursor.sees(Kind::Less) {
        return cursor.sign(Kind::Less, BinaryOp::Less);
    }
    if cursor.sees(Kind::AtMost) {
        return cursor.sign(Kind::AtMost, BinaryOp::AtMost);
    }
    if cursor.sees(Kind::Greater) {
        return cursor.sign(Kind::Greater, BinaryOp::Greater);
    }
    cursor.sign(Kind::AtLeast, BinaryOp::AtLeast)
}

#[tactic(auto, unfolding(wat_syntax::specs::Sql::conjunction_operator))]
pub fn conjunction_operator(cursor: &mut Cursor<'_>) -> Result<BinaryOp, Fault>
    ensures { (levels : ℕ) → Reads (read_within sql levels spec.conjunction_operator cursor.old) result cursor.new }
{
    cursor.sign(Kind::And, BinaryOp::And)
}

#[tactic(auto, unfolding(wat_syntax::specs::Sql::expression_operator))]
pub fn expression_operator(cursor: &mut Cursor<'_>) -> Result<BinaryOp, Fault>
    ensures { (levels : ℕ) → Reads (read_within sql levels spec.expression_operator cursor.old) result cursor.new }
{
    cursor.sign(Kind::Or, BinaryOp::Or)
}

#[tactic(auto, unfolding(wat_syntax::specs::Sql::aggregate_word))]
pub fn aggregate_word(cursor: &mut Cursor<'_>) -> Result<AggregateKind, Fault>
    ensures { (levels : ℕ) → Reads (read_within sql levels spec.aggregate_word cursor.old) result cursor.new }
{
    if cursor.sees(Kind::Sum) {
        return cursor.sign(Kind::Sum, AggregateKind::Sum);
    }
    if cursor.sees(Kind::Min) {
        return cursor.sign(Kind::Min, AggregateKind::Min);
    }
    cursor.sign(Kind::Max, AggregateKind::Max)
}

#[tactic(auto, unfolding(wat_syntax::specs::Sql::column))]
pub fn any_column(alloc: Global, cursor: &mut Cursor<'_>) -> Result<Expr, Fault>
    ensures { (levels : ℕ) → Reads (read_within sql levels spec.column cursor.old) result cursor.new }
{
    let first = cursor.name(alloc)?;
    if cursor.sees(Kind::Dot) {
        cursor.word(Kind::Dot)?;
        let name = cursor.name(alloc)?;
        return Ok(Expr::Named {
            table: Some(first),
            name,
        });
    }
    Ok(Expr::Named {
        table: None,
        name: first,
    })
}

/// IS NULL or IS NOT NULL, of what stands before.
#[tactic(auto, unfolding(wat_syntax::specs::Sql::is_null))]
pub fn null_test(alloc: Global, cursor: &mut Cursor<'_>, arg: Expr) -> Result<Expr, Fault>
    ensures { (levels : ℕ) → Reads (read_applied levels spec.is_null arg cursor.old) result cursor.new }
{
    cursor.word(Kind::Is)?;
    let negated = cursor.takes(Kind::Not);
    cursor.word(Kind::Null)?;
    Ok(is_null(alloc, arg, negated)?)
}

ghost use Rattle.std.specs.Prelude.{◌≡◌, map, IfOk};
ghost use Rattle.wat_ast.specs.declared.expression.AggregateKind.{AggregateKind};
ghost use Rattle.wat_walk.specs.Chain.{IsOperand};
ghost use Rattle.wat_expr.specs.Operators.{among};
ghost use Rattle.wat_walk.specs.Lent.{lent};
ghost use Rattle.wat_expr.specs.Private.{over_context};
ghost use Rattle.wat_expr.specs.Evaluation.{outcome_of, over, over_group, value_at, aggregate_over};

use crate::context::Context;
use crate::left_operand::LeftOperand;
use crate::outcome::Outcome;
use crate::{aggregates, operators};
use std::alloc::Global;
use wat_ast::{AggregateKind, BinaryOp, Expr};
use wat_list::{Copied, NoMemory};
use wat_value::{Combination, Value};
use wat_walk::Spine;

fn value_at(alloc: Global, rows: &Combination, source: u32, column: u8) -> Result<Value, NoMemory>
    ensures { IfOk result (λ v. v ≡ value_at rows.now source column) }
{
    if let Some(Some(row)) = rows.as_slice().get(source as usize) {
        if let Some(value) = row.as_slice().get(column as usize) {
            return value.copy(alloc);
        }
    }
    Ok(Value::Null)
}

// COUNT(*).
fn count(context: &Context<'_>) -> Outcome
    ensures { (kind : AggregateKind) → result ≡ aggregate_over kind None (over_context context.now).group }
{
    if context.is_grouped {
        aggregates::count(context.group.len())
    } else {
        Outcome::Error
    }
}

// The first operand of a chain, and then each operation in turn: a long chain takes little of the stack.
#[cycle(evaluation)]
fn evaluate(alloc: Global, expr: &Expr, context: &Context<'_>) -> Result<Outcome, NoMemory>
    ensures { IfOk result (λ o. o ≡ outcome_of expr.now (over_context context.now)) }
{
    let spine = Spine::of(alloc, expr)?;
    let first = operand(alloc, spine.first, context)?;
    let mut left = LeftOperand::Computed(first);
    for operation in spine.operations.iter() {
        let right = evaluate(alloc, operation.right, context)?;
        left = left.operated(alloc, operation.op, right)?;
    }
    left.into_outcome(alloc)
}

// An expression that is no operation on two operands.
#[cycle(evaluation)]
#[tactic(auto, using(crate::proofs::EvaluationLemmas::outcomes_over))]
fn operand(alloc: Global, expr: &Expr, context: &Context<'_>) -> Result<Outcome, NoMemory>
    requires { IsOperand expr.now }
    ensures { IfOk result (λ o. o ≡ outcome_of expr.now (over_context context.now)) }
{
    match expr {
        Expr::Literal(value) => {
            let value = value.copy(alloc)?;
            Ok(Outcome::Is(value))
        }
        Expr::Named { .. } => Ok(Outcome::Error),
        Expr::Placed { source, column } => {
            let value = value_at(alloc, context.rows, *source, *column)?;
            Ok(Outcome::Is(value))
        }
        Expr::Unary { op, arg } => {
            let a = evaluate(alloc, arg.get(), context)?;
            Ok(operators::unary(*op, a))
        }
        Expr::Binary { .. } => unreachable!(),
        Expr::IsNull { arg, negated } => {
            let a = evaluate(alloc, arg.get(), context)?;
            Ok(a.null_test().negated_if(*negated))
        }
        Expr::Between {
            arg,
            low,
            high,
            negated,
        } => {
            let a = evaluate(alloc, arg.get(), context)?;
            let low = evaluate(alloc, low.get(), context)?;
            let high = evaluate(alloc, high.get(), context)?;
            let above = operators::comparison(BinaryOp::AtLeast, &a, &low);
            let below = operators::comparison(BinaryOp::AtMost, &a, &high);
            Ok(above.and(below).negated_if(*negated))
        }
        Expr::InList {
            arg,
            items,
            negated,
        } => {
            let a = evaluate(alloc, arg.get(), context)?;
            let found = among(alloc, &a, items.as_slice(), context)?;
            Ok(found.negated_if(*negated))
        }
        Expr::Aggregate { kind, arg } => match arg {
            None => Ok(count(context)),
            Some(arg) => aggregate(alloc, *kind, arg.get(), context),
        },
    }
}

// Whether the outcome equals an item's.
#[cycle(evaluation)]
fn among(
    alloc: Global,
    a: &Outcome,
    items: &[Expr],
    context: &Context<'_>,
) -> Result<Outcome, NoMemory>
    ensures { IfOk result (λ o. o ≡ among a.now (map (λ x. outcome_of x (over_context context.now)) items.now)) }
{
    let mut found = Outcome::False;
    for item in items {
        let item = evaluate(alloc, item, context)?;
        found = found.or(operators::comparison(BinaryOp::Equal, a, &item));
    }
    Ok(found)
}

#[cycle(evaluation)]
fn aggregate(
    alloc: Global,
    kind: AggregateKind,
    arg: &Expr,
    context: &Context<'_>,
) -> Result<Outcome, NoMemory>
    ensures { IfOk result (λ o. o ≡ aggregate_over kind (Some (outcome_of arg.now)) (over_context context.now).group) }
{
    if !context.is_grouped {
        return Ok(Outcome::Error);
    }
    let outcomes = outcomes(alloc, arg, context.group)?;
    aggregates::aggregate(alloc, kind, outcomes)
}

// The outcomes over each combination of a group.
#[cycle(evaluation)]
fn outcomes(alloc: Global, arg: &Expr, group: &[&Combination]) -> Result<Vec<Outcome>, NoMemory>
    ensures { IfOk result (λ os. os.items ≡ map (λ rows. outcome_of arg.now (over rows)) (lent group.now)) }
{
    let mut outcomes = Vec::new(alloc);
    for rows in group {
        let outcome = evaluate(alloc, arg, &Context::alone(rows))?;
        outcomes.push(outcome)?;
    }
    Ok(outcomes)
}

/// The outcome of an expression over a combination. An aggregate, which has no group here, is an error.
pub fn eval(alloc: Global, expr: &Expr, rows: &Combination) -> Result<Outcome, NoMemory>
    ensures { IfOk result (λ o. o ≡ outcome_of expr.now (over rows.now)) }
{
    evaluate(alloc, expr, &Context::alone(rows))
}

/// The outcome of an expression over a combination of a group, with its aggregates over the whole group.
pub fn eval_over(
    alloc: Global,
    expr: &Expr,
    rows: &Combination,
    group: &[&Combination],
) -> Result<Outcome, NoMemory>
    ensures { IfOk result (λ o. o ≡ outcome_of expr.now (over_group rows.now (lent group.now))) }
{
    evaluate(alloc, expr, &Context::grouped(rows, group))
}

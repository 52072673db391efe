ghost use Rattle.std.specs.Prelude.{◌≡◌, ◌<◌, ◌^◌, pos, unwrap_or, IfOk};
ghost use Rattle.std.specs.List.{filter_map, list_any};
ghost use Rattle.std.specs.Option.{option_map_or};
ghost use Rattle.std.specs.Ordering.{ord_min, ord_max};
ghost use Rattle.wat_value.specs.Order.{value_cmp};
ghost use Rattle.wat_value.specs.declared.value.Value.TheVariants.{Null, Int};
ghost use Rattle.wat_ast.specs.declared.expression.AggregateKind.TheVariants.{Min, Max};
ghost use Rattle.wat_expr.specs.declared.outcome.Outcome.TheVariants.{Is};
ghost use Rattle.wat_expr.specs.Logic.{is_error};
ghost use Rattle.wat_expr.specs.Operators.{if_fits};
ghost use Rattle.wat_expr.specs.Aggregates.{known_value, number, sum, summary, aggregate};

use crate::operators::or_error;
use crate::outcome::Outcome;
use std::alloc::Global;
use wat_ast::AggregateKind;
use wat_list::NoMemory;
use wat_value::Value;

fn known_value(outcome: Outcome) -> Option<Value>
    ensures { result ≡ known_value outcome }
{
    match outcome {
        Outcome::Is(Value::Int(n)) => Some(Value::Int(n)),
        Outcome::Is(Value::Text(text)) => Some(Value::Text(text)),
        Outcome::Is(Value::Null)
        | Outcome::True
        | Outcome::False
        | Outcome::Unknown
        | Outcome::Error => None,
    }
}

#[tactic(auto, using(crate::proofs::AggregateLemmas::filter_map_push))]
fn known_values(alloc: Global, outcomes: Vec<Outcome>) -> Result<Vec<Value>, NoMemory>
    ensures { IfOk result (λ values. values.items ≡ filter_map known_value outcomes.items) }
{
    let mut values = Vec::new(alloc);
    for outcome in outcomes {
        if let Some(value) = known_value(outcome) {
            values.push(value)?;
        }
    }
    Ok(values)
}

fn has_error(outcomes: &[Outcome]) -> bool
    ensures { result ≡ list_any is_error outcomes.now }
{
    outcomes.iter().any(|outcome| outcome.is_error())
}

/// A number of items, as COUNT gives it.
pub(crate) fn count(len: usize) -> Outcome
    requires { len < 2 ^ 63 }
    ensures { result ≡ Is (Int (pos len)) }
{
    Outcome::Is(Value::Int(len as i64))
}

fn number(value: &Value) -> i64
    ensures { result ≡ number value.now }
{
    match value {
        Value::Int(n) => *n,
        Value::Null | Value::Text(_) => 0,
    }
}

fn if_fits(n: i128) -> Option<i64>
    ensures { result ≡ if_fits n }
{
    if n < -9223372036854775808 || n > 9223372036854775807 {
        None
    } else {
        Some(n as i64)
    }
}

// 128 bits hold the sum of as many integers of 64 bits as there can be.
fn sum(values: &[Value]) -> Outcome
    ensures { result ≡ sum values.now }
{
    if values.is_empty() {
        return Outcome::Is(Value::Null);
    }
    let mut total: i128 = 0;
    for value in values {
        total += i128::from(number(value));
    }
    or_error(if_fits(total))
}

fn lesser(least: Option<Value>, value: Value) -> Option<Value>
    ensures { result ≡ Some (option_map_or (λ v. ord_min value_cmp v value) least value) }
{
    match least {
        None => Some(value),
        Some(least) => Some(least.min(value)),
    }
}

fn greater(greatest: Option<Value>, value: Value) -> Option<Value>
    ensures { result ≡ Some (option_map_or (λ v. ord_max value_cmp v value) greatest value) }
{
    match greatest {
        None => Some(value),
        Some(greatest) => Some(greatest.max(value)),
    }
}

fn value_or_null(value: Option<Value>) -> Outcome
    ensures { result ≡ Is (unwrap_or value Null) }
{
    match value {
        None => Outcome::Is(Value::Null),
        Some(value) => Outcome::Is(value),
    }
}

#[tactic(auto, using(crate::proofs::AggregateLemmas::reduce_push))]
fn least(values: Vec<Value>) -> Outcome
    ensures { result ≡ summary Min values.items }
{
    let mut least = None;
    for value in values {
        least = lesser(least, value);
    }
    value_or_null(least)
}

#[tactic(auto, using(crate::proofs::AggregateLemmas::reduce_push))]
fn greatest(values: Vec<Value>) -> Outcome
    ensures { result ≡ summary Max values.items }
{
    let mut greatest = None;
    for value in values {
        greatest = greater(greatest, value);
    }
    value_or_null(greatest)
}

/// The aggregate of these outcomes of its argument.
pub(crate) fn aggregate(
    alloc: Global,
    kind: AggregateKind,
    outcomes: Vec<Outcome>,
) -> Result<Outcome, NoMemory>
    ensures { IfOk result (λ o. o ≡ aggregate kind outcomes.items) }
{
    if has_error(outcomes.as_slice()) {
        return Ok(Outcome::Error);
    }
    let values = known_values(alloc, outcomes)?;
    match kind {
        AggregateKind::Count => Ok(count(values.len())),
        AggregateKind::Sum => Ok(sum(values.as_slice())),
        AggregateKind::Min => Ok(least(values)),
        AggregateKind::Max => Ok(greatest(values)),
    }
}

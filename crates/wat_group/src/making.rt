ghost use Rattle.std.specs.Prelude.{◌≡◌, ◌++◌, IfOk, OnOk, map};
ghost use Rattle.wat_expr.specs.Evaluation.{outcome_of};
ghost use Rattle.wat_expr.specs.Logic.{is_error};
ghost use Rattle.wat_group.specs.Query.{unless, value_of, values_of, has_error, all_values, items_at, item_at, order_outcome, order_outcomes, order_key, line_at, fails_at};
ghost use Rattle.wat_group.specs.Private.{over_of};

use crate::line::{Line, OrderKey, OrderKeys};
use crate::taken::Taken;
use std::alloc::Global;
use wat_ast::{Expr, OrderBy, OrderItem, Query, SelectItems};
use wat_expr::Outcome;
use wat_list::{Copied, Items, NoMemory};
use wat_value::{Combination, Row, Value};

// The value of an outcome, or None for an error.
fn value_of(outcome: Outcome) -> Option<Value>
    ensures { result ≡ unless (is_error outcome) (value_of outcome) }
{
    match outcome {
        Outcome::Is(value) => Some(value),
        Outcome::True | Outcome::False | Outcome::Unknown => Some(Value::Null),
        Outcome::Error => None,
    }
}

fn copied_value(alloc: Global, outcome: &Outcome) -> Result<Option<Value>, NoMemory>
    ensures { IfOk result (λ v. v ≡ unless (is_error outcome.now) (value_of outcome.now)) }
{
    match outcome {
        Outcome::Is(value) => {
            let value = value.copy(alloc)?;
            Ok(Some(value))
        }
        Outcome::True | Outcome::False | Outcome::Unknown => Ok(Some(Value::Null)),
        Outcome::Error => Ok(None),
    }
}

fn all_values(alloc: Global, rows: &Combination) -> Result<Vec<Outcome>, NoMemory>
    ensures { IfOk result (λ v. v.items ≡ map Outcome.Is (all_values rows.now)) }
{
    let mut values = Vec::new(alloc);
    for row in rows.as_slice() {
        if let Some(row) = row {
            push_all(alloc, row, &mut values)?;
        }
    }
    Ok(values)
}

fn push_all(alloc: Global, row: &Row, values: &mut Vec<Outcome>) -> Result<(), NoMemory>
    ensures { OnOk result (values.new.items ≡ values.old.items ++ map Outcome.Is row.now) }
{
    for value in row.as_slice() {
        let value = value.copy(alloc)?;
        values.push(Outcome::Is(value))?;
    }
    Ok(())
}

fn items_at(alloc: Global, query: &Query, at: &Taken) -> Result<Vec<Outcome>, NoMemory>
    ensures { IfOk result (λ v. v.items ≡ items_at query.now (over_of at.now)) }
{
    match &query.items {
        SelectItems::Star => all_values(alloc, at.rows),
        SelectItems::List(exprs) => outcomes(alloc, exprs.as_slice(), at),
    }
}

pub(crate) fn outcomes(alloc: Global, exprs: &[Expr], at: &Taken) -> Result<Vec<Outcome>, NoMemory>
    ensures { IfOk result (λ v. v.items ≡ map (λ e. outcome_of e (over_of at.now)) exprs.now) }
{
    let mut outcomes = Vec::new(alloc);
    for expr in exprs {
        outcomes.push(at.outcome(alloc, expr)?)?;
    }
    Ok(outcomes)
}

pub(crate) fn row_of(alloc: Global, shown: Vec<Outcome>) -> Result<Option<Row>, NoMemory>
    ensures { IfOk result (λ row. row ≡ unless (has_error shown.items) (values_of shown.items)) }
{
    let mut row = Items::new(alloc);
    for outcome in shown {
        match value_of(outcome) {
            Some(value) => row.push(value)?,
            None => return Ok(None),
        }
    }
    Ok(Some(row))
}

// The item at a position, which counts from 1.
fn item_at(alloc: Global, shown: &[Outcome], position: i64) -> Result<Option<Value>, NoMemory>
    ensures { IfOk result (λ v. v ≡ unless (is_error (item_at shown.now position)) (value_of (item_at shown.now position))) }
{
    if position < 1 {
        return Ok(None);
    }
    match shown.get((position - 1) as usize) {
        Some(outcome) => copied_value(alloc, outcome),
        None => Ok(None),
    }
}

fn order_value(
    alloc: Global,
    query: &Query,
    shown: &[Outcome],
    at: &Taken,
    item: &OrderItem,
) -> Result<Option<Value>, NoMemory>
    requires { shown.now ≡ items_at query.now (over_of at.now) }
    ensures { IfOk result (λ v. v ≡ unless (is_error (order_outcome query.now (over_of at.now) item.now)) (value_of (order_outcome query.now (over_of at.now) item.now))) }
{
    match &item.by {
        OrderBy::Column(column) => {
            let outcome = at.outcome(alloc, column)?;
            Ok(value_of(outcome))
        }
        OrderBy::Position(position) => item_at(alloc, shown, *position),
    }
}

fn order_keys(
    alloc: Global,
    query: &Query,
    shown: &[Outcome],
    at: &Taken,
) -> Result<Option<OrderKeys>, NoMemory>
    requires { shown.now ≡ items_at query.now (over_of at.now) }
    ensures { IfOk result (λ keys. keys ≡ unless (has_error (order_outcomes query.now (over_of at.now))) (map (order_key query.now (over_of at.now)) query.now.order)) }
{
    let mut keys = Items::new(alloc);
    for item in query.order.as_slice() {
        match order_value(alloc, query, shown, at, item)? {
            Some(value) if item.descending => keys.push(OrderKey::Descending(value))?,
            Some(value) => keys.push(OrderKey::Ascending(value))?,
            None => return Ok(None),
        }
    }
    Ok(Some(keys))
}

/// The line, or None where an item or what ORDER BY reads is an error.
pub fn line_at(alloc: Global, query: &Query, at: &Taken) -> Result<Option<Line>, NoMemory>
    ensures { IfOk result (λ line. line ≡ unless (fails_at query.now (over_of at.now)) (line_at query.now (over_of at.now))) }
{
    let shown = items_at(alloc, query, at)?;
    let Some(order) = order_keys(alloc, query, &shown, at)? else {
        return Ok(None);
    };
    let Some(row) = row_of(alloc, shown)? else {
        return Ok(None);
    };
    Ok(Some(Line { row, order }))
}

ghost use Rattle.std.specs.Prelude.{◌≡◌, map, IfOk};
ghost use Rattle.wat_expr.specs.Logic.{is_error};
ghost use Rattle.wat_group.specs.Query.{has_error, outcome_at, unless, value_of, values_of};

use std::alloc::Global;
use wat_ast::Expr;
use wat_expr::{Outcome, eval};
use wat_list::{Items, NoMemory};
use wat_value::{Combination, Row, Value};

// The value of an outcome, or None for an error. An answer of the logic of conditions is no value.
fn value_of(outcome: Outcome) -> Option<Value>
    ensures { result ≡ unless (is_error outcome) (value_of outcome) }
{
    match outcome {
        Outcome::Is(value) => Some(value),
        Outcome::True | Outcome::False | Outcome::Unknown => Some(Value::Null),
        Outcome::Error => None,
    }
}

/// The value of the expression over the combination, or None for an error.
pub fn value(alloc: Global, expr: &Expr, rows: &Combination) -> Result<Option<Value>, NoMemory>
    ensures { IfOk result (λ value. value ≡ unless (is_error (outcome_at rows.now expr.now)) (value_of (outcome_at rows.now expr.now))) }
{
    let outcome = eval(alloc, expr, rows)?;
    Ok(value_of(outcome))
}

/// The values of the expressions over the combination, or None where one has an error.
pub fn values(alloc: Global, exprs: &[Expr], rows: &Combination) -> Result<Option<Row>, NoMemory>
    ensures { IfOk result (λ row. row ≡ unless (has_error (map (outcome_at rows.now) exprs.now)) (values_of (map (outcome_at rows.now) exprs.now))) }
{
    let mut row = Items::new(alloc);
    for expr in exprs {
        match value(alloc, expr, rows)? {
            Some(value) => row.push(value)?,
            None => return Ok(None),
        }
    }
    Ok(Some(row))
}

ghost use Rattle.std.specs.Prelude.{◌≡◌};
ghost use Rattle.wat_expr.specs.Operators.{test, comparison, computation, arithmetic, minus, unary, exact, or_error};

use crate::outcome::{Outcome, is_null, truth};
use std::cmp::Ordering;
use wat_ast::{BinaryOp, UnaryOp};
use wat_value::Value;

fn test(op: BinaryOp, order: Ordering) -> bool
    ensures { result ≡ test op order }
{
    match op {
        BinaryOp::Equal => order.is_eq(),
        BinaryOp::Unequal => order.is_ne(),
        BinaryOp::Less => order.is_lt(),
        BinaryOp::AtMost => order.is_le(),
        BinaryOp::Greater => order.is_gt(),
        BinaryOp::AtLeast => order.is_ge(),
        _ => false,
    }
}

pub(crate) fn comparison(op: BinaryOp, a: &Outcome, b: &Outcome) -> Outcome
    ensures { result ≡ comparison op a.now b.now }
{
    match (a, b) {
        (Outcome::Is(v), Outcome::Is(w)) => {
            if is_null(v) || is_null(w) {
                Outcome::Unknown
            } else {
                truth(test(op, v.compare(w)))
            }
        }
        _ => Outcome::Error,
    }
}

// The exact result, where there is one and 64 bits hold it.
fn exact(op: BinaryOp, m: i64, n: i64) -> Option<i64>
    ensures { result ≡ exact op m n }
{
    match op {
        BinaryOp::Add => m.checked_add(n),
        BinaryOp::Subtract => m.checked_sub(n),
        BinaryOp::Multiply => m.checked_mul(n),
        BinaryOp::Divide => m.checked_div(n),
        _ => None,
    }
}

pub(crate) fn or_error(n: Option<i64>) -> Outcome
    ensures { result ≡ or_error n }
{
    match n {
        Some(n) => Outcome::Is(Value::Int(n)),
        None => Outcome::Error,
    }
}

fn computation(op: BinaryOp, v: &Value, w: &Value) -> Outcome
    ensures { result ≡ computation op v.now w.now }
{
    match (v, w) {
        (Value::Int(m), Value::Int(n)) => or_error(exact(op, *m, *n)),
        _ => Outcome::Error,
    }
}

pub(crate) fn arithmetic(op: BinaryOp, a: &Outcome, b: &Outcome) -> Outcome
    ensures { result ≡ arithmetic op a.now b.now }
{
    match (a, b) {
        (Outcome::Is(v), Outcome::Is(w)) => {
            if is_null(v) || is_null(w) {
                Outcome::Is(Value::Null)
            } else {
                computation(op, v, w)
            }
        }
        _ => Outcome::Error,
    }
}

fn minus(a: &Outcome) -> Outcome
    ensures { result ≡ minus a.now }
{
    match a {
        Outcome::Is(Value::Null) => Outcome::Is(Value::Null),
        Outcome::Is(Value::Int(n)) => or_error(n.checked_neg()),
        _ => Outcome::Error,
    }
}

pub(crate) fn unary(op: UnaryOp, a: Outcome) -> Outcome
    ensures { result ≡ unary op a }
{
    match op {
        UnaryOp::Not => a.negated_if(true),
        UnaryOp::Minus => minus(&a),
    }
}

use std::alloc::Global;
use wat_ast::{BinaryOp, Expr};
use wat_expr::{Outcome, eval};
use wat_list::{Boxed, Copied, Items, NoMemory};
use wat_value::{Text, Value};

fn chain(alloc: Global, op: BinaryOp, value: &Value, operators: u32) -> Result<Expr, NoMemory> {
    let mut chain = Expr::Literal(value.copy(alloc)?);
    for _turn in 0..operators {
        let left = Boxed::new(alloc, chain)?;
        let right = Boxed::new(alloc, Expr::Literal(value.copy(alloc)?))?;
        chain = Expr::Binary { op, left, right };
    }
    Ok(chain)
}

fn outcome(alloc: Global, op: BinaryOp, value: &Value, count: u32) -> Result<Outcome, NoMemory> {
    let chain = chain(alloc, op, value, count)?;
    eval(alloc, &chain, &Items::new(alloc))
}

/// `1 + 1 + .. + 1` with so many operators.
pub(crate) fn sum(alloc: Global, operators: u32) -> Result<Option<i64>, NoMemory> {
    match outcome(alloc, BinaryOp::Add, &Value::Int(1), operators)? {
        Outcome::Is(Value::Int(sum)) => Ok(Some(sum)),
        _ => Ok(None),
    }
}

/// The length of `'a' || 'a' || .. || 'a'` with so many operators.
pub(crate) fn joined_length(alloc: Global, operators: u32) -> Result<Option<usize>, NoMemory> {
    let letter = Value::Text(Text::of(alloc, "a")?);
    match outcome(alloc, BinaryOp::Concat, &letter, operators)? {
        Outcome::Is(Value::Text(text)) => Ok(Some(text.as_str().len())),
        _ => Ok(None),
    }
}

//! Makes expressions of their parts.

ghost use Rattle.std.specs.Prelude.{◌≡◌, IfOk};

use std::alloc::Global;
use wat_ast::{AggregateKind, BinaryOp, Expr, Exprs, UnaryOp};
use wat_list::{Boxed, NoMemory};

pub fn unary(alloc: Global, op: UnaryOp, arg: Expr) -> Result<Expr, NoMemory>
    ensures { IfOk result (λ e. e ≡ Expr.Unary op arg) }
{
    let arg = Boxed::new(alloc, arg)?;
    Ok(Expr::Unary { op, arg })
}

pub fn binary(alloc: Global, op: BinaryOp, left: Expr, right: Expr) -> Result<Expr, NoMemory>
    ensures { IfOk result (λ e. e ≡ Expr.Binary op left right) }
{
    let left = Boxed::new(alloc, left)?;
    let right = Boxed::new(alloc, right)?;
    Ok(Expr::Binary { op, left, right })
}

pub fn is_null(alloc: Global, arg: Expr, negated: bool) -> Result<Expr, NoMemory>
    ensures { IfOk result (λ e. e ≡ Expr.IsNull arg negated) }
{
    let arg = Boxed::new(alloc, arg)?;
    Ok(Expr::IsNull { arg, negated })
}

pub fn between(
    alloc: Global,
    arg: Expr,
    low: Expr,
    high: Expr,
    negated: bool,
) -> Result<Expr, NoMemory>
    ensures { IfOk result (λ e. e ≡ Expr.Between arg low high negated) }
{
    let arg = Boxed::new(alloc, arg)?;
    let low = Boxed::new(alloc, low)?;
    let high = Boxed::new(alloc, high)?;
    Ok(Expr::Between {
        arg,
        low,
        high,
        negated,
    })
}

pub fn in_list(alloc: Global, arg: Expr, items: Exprs, negated: bool) -> Result<Expr, NoMemory>
    ensures { IfOk result (λ e. e ≡ Expr.InList arg items negated) }
{
    let arg = Boxed::new(alloc, arg)?;
    Ok(Expr::InList {
        arg,
        items,
        negated,
    })
}

pub fn aggregate(alloc: Global, kind: AggregateKind, arg: Option<Expr>) -> Result<Expr, NoMemory>
    ensures { IfOk result (λ e. e ≡ Expr.Aggregate kind arg) }
{
    match arg {
        None => Ok(Expr::Aggregate { kind, arg: None }),
        Some(arg) => {
            let arg = Some(Boxed::new(alloc, arg)?);
            Ok(Expr::Aggregate { kind, arg })
        }
    }
}

ghost use Rattle.std.specs.Prelude.{◌≡◌, IfOk};
ghost use Rattle.wat_ast.specs.Chain.{grown};

use crate::{BinaryOp, Expr, Exprs};
use std::alloc::Global;
use wat_list::{Boxed, Copied, Items, NoMemory};

/// An operator and its right operand.
#[derive(Drop)]
struct Operation {
    op: BinaryOp,
    right: Expr,
}

// The chain of these operations, of which the last one stands at `first`.
#[tactic(auto, using(crate::proofs::Growing::grown_push))]
fn chain(alloc: Global, first: Expr, mut operations: Vec<Operation>) -> Result<Expr, NoMemory>
    ensures { IfOk result (λ tree. tree ≡ grown first operations.items) }
{
    let mut tree = first;
    while let Some(operation) = operations.pop() {
        let Operation { op, right } = operation;
        let left = Boxed::new(alloc, tree)?;
        let right = Boxed::new(alloc, right)?;
        tree = Expr::Binary { op, left, right };
    }
    Ok(tree)
}

#[cycle(copies)]
fn boxed_copy(alloc: Global, expr: &Expr) -> Result<Boxed<Expr>, NoMemory>
    ensures { IfOk result (λ copy. copy ≡ expr.now) }
{
    let copy = copy_of(alloc, expr)?;
    Boxed::new(alloc, copy)
}

#[cycle(copies)]
fn copies(alloc: Global, exprs: &[Expr]) -> Result<Exprs, NoMemory>
    ensures { IfOk result (λ copies. copies ≡ exprs.now) }
{
    let mut copies = Items::new(alloc);
    for expr in exprs {
        copies.push(copy_of(alloc, expr)?)?;
    }
    Ok(copies)
}

// A loop down the left operands, so that a long chain takes little of the stack.
#[cycle(copies)]
#[tactic(auto, using(crate::proofs::Growing::grown_push))]
fn copy_of(alloc: Global, expr: &Expr) -> Result<Expr, NoMemory>
    ensures { IfOk result (λ copy. copy ≡ expr.now) }
{
    let mut operations = Vec::new(alloc);
    let mut rest = expr;
    loop {
        match rest {
            Expr::Binary { op, left, right } => {
                let right = copy_of(alloc, right.get())?;
                operations.push(Operation { op: *op, right })?;
                rest = left.get();
            }
            Expr::Literal(value) => {
                let value = value.copy(alloc)?;
                return chain(alloc, Expr::Literal(value), operations);
            }
            Expr::Named { table, name } => {
                let table = table.copy(alloc)?;
                let name = name.copy(alloc)?;
                return chain(alloc, Expr::Named { table, name }, operations);
            }
            Expr::Placed { source, column } => {
                let (source, column) = (*source, *column);
                return chain(alloc, Expr::Placed { source, column }, operations);
            }
            Expr::Unary { op, arg } => {
                let arg = boxed_copy(alloc, arg.get())?;
                return chain(alloc, Expr::Unary { op: *op, arg }, operations);
            }
            Expr::IsNull { arg, negated } => {
                let arg = boxed_copy(alloc, arg.get())?;
                let negated = *negated;
                return chain(alloc, Expr::IsNull { arg, negated }, operations);
            }
            Expr::Between {
                arg,
                low,
                high,
                negated,
            } => {
                let between = Expr::Between {
                    arg: boxed_copy(alloc, arg.get())?,
                    low: boxed_copy(alloc, low.get())?,
                    high: boxed_copy(alloc, high.get())?,
                    negated: *negated,
                };
                return chain(alloc, between, operations);
            }
            Expr::InList {
                arg,
                items,
                negated,
            } => {
                let among = Expr::InList {
                    arg: boxed_copy(alloc, arg.get())?,
                    items: copies(alloc, items.as_slice())?,
                    negated: *negated,
                };
                return chain(alloc, among, operations);
            }
            Expr::Aggregate { kind, arg: None } => {
                let kind = *kind;
                return chain(alloc, Expr::Aggregate { kind, arg: None }, operations);
            }
            Expr::Aggregate {
                kind,
                arg: Some(arg),
            } => {
                let kind = *kind;
                let arg = Some(boxed_copy(alloc, arg.get())?);
                return chain(alloc, Expr::Aggregate { kind, arg }, operations);
            }
        }
    }
}

impl Copied for Expr {
    fn copy(&self, alloc: Global) -> Result<Self, NoMemory> {
        copy_of(alloc, self)
    }
}

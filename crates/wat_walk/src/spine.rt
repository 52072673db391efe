ghost use Rattle.std.specs.Prelude.{◌≡◌, IfOk};
ghost use Rattle.wat_walk.specs.Chain.{chain, IsOperand};

use std::alloc::Global;
use wat_ast::{BinaryOp, Expr};
use wat_list::NoMemory;

/// An operator and its right operand.
#[derive(Drop)]
pub struct Operation<'a> {
    pub op: BinaryOp,
    pub right: &'a Expr,
}

/// A chain of operations, which is grouped to the left: its first operand, and its operations in text order.
#[derive(Drop)]
pub struct Spine<'a> {
    pub first: &'a Expr,
    pub operations: Vec<Operation<'a>>,
}

impl<'a> Spine<'a> {
    /// The chain that the expression is. An expression that is no operation on two operands is a chain of itself.
    pub fn of(alloc: Global, expr: &'a Expr) -> Result<Spine<'a>, NoMemory>
        ensures whole { IfOk result (λ s. chain s.first.now s.operations.items ≡ expr.now) }
        ensures first { IfOk result (λ s. IsOperand s.first.now) }
    {
        let mut operations = Vec::new(alloc);
        let mut first = expr;
        while let Expr::Binary { op, left, right } = first {
            let (op, right) = (*op, right.get());
            operations.push(Operation { op, right })?;
            first = left.get();
        }
        operations.reverse();
        Ok(Spine { first, operations })
    }
}

ghost use Rattle.std.specs.Prelude.{◌≡◌, ◌||◌, ◌++◌, [], false, IfOk, OnOk};
ghost use Rattle.std.specs.List.{flat_map, list_any};
ghost use Rattle.wat_walk.specs.Chain.{IsOperand};
ghost use Rattle.wat_walk.specs.Parts.{is_aggregated, arguments_in};
ghost use Rattle.wat_walk.specs.Lent.{lent};

use crate::Spine;
use std::alloc::Global;
use wat_ast::Expr;
use wat_list::NoMemory;

/// The aggregates of some expressions: whether there is one, and their arguments in text order. COUNT(*) has none.
#[derive(Drop)]
pub struct Aggregates<'a> {
    pub found: bool,
    pub arguments: Vec<&'a Expr>,
}

#[cycle(aggregates)]
#[tactic(auto, using(crate::proofs::AggregateLemmas::chains))]
fn add_chain<'a>(
    alloc: Global,
    expr: &'a Expr,
    aggregates: &mut Aggregates<'a>,
) -> Result<(), NoMemory>
    ensures found { OnOk result (aggregates.new.found ≡ (aggregates.old.found || is_aggregated expr.now)) }
    ensures arguments { OnOk result (lent aggregates.new.arguments.items ≡ lent aggregates.old.arguments.items ++ arguments_in expr.now) }
{
    let spine = Spine::of(alloc, expr)?;
    add_operand(alloc, spine.first, aggregates)?;
    for operation in spine.operations.iter() {
        add_chain(alloc, operation.right, aggregates)?;
    }
    Ok(())
}

#[cycle(aggregates)]
#[tactic(auto, using(crate::proofs::AggregateLemmas::kinds))]
fn add_operand<'a>(
    alloc: Global,
    expr: &'a Expr,
    aggregates: &mut Aggregates<'a>,
) -> Result<(), NoMemory>
    requires { IsOperand expr.now }
    ensures found { OnOk result (aggregates.new.found ≡ (aggregates.old.found || is_aggregated expr.now)) }
    ensures arguments { OnOk result (lent aggregates.new.arguments.items ≡ lent aggregates.old.arguments.items ++ arguments_in expr.now) }
{
    match expr {
        Expr::Literal(_) | Expr::Named { .. } | Expr::Placed { .. } => Ok(()),
        Expr::Unary { op: _, arg } => add_chain(alloc, arg.get(), aggregates),
        Expr::Binary { .. } => unreachable!(),
        Expr::IsNull { arg, negated: _ } => add_chain(alloc, arg.get(), aggregates),
        Expr::Between {
            arg,
            low,
            high,
            negated: _,
        } => {
            add_chain(alloc, arg.get(), aggregates)?;
            add_chain(alloc, low.get(), aggregates)?;
            add_chain(alloc, high.get(), aggregates)
        }
        Expr::InList {
            arg,
            items,
            negated: _,
        } => {
            add_chain(alloc, arg.get(), aggregates)?;
            add_list(alloc, items.as_slice(), aggregates)
        }
        Expr::Aggregate { kind: _, arg } => {
            aggregates.found = true;
            if let Some(arg) = arg {
                aggregates.arguments.push(arg.get())?;
            }
            Ok(())
        }
    }
}

#[cycle(aggregates)]
#[tactic(auto, using(crate::proofs::AggregateLemmas::chains))]
fn add_list<'a>(
    alloc: Global,
    exprs: &'a [Expr],
    aggregates: &mut Aggregates<'a>,
) -> Result<(), NoMemory>
    ensures found { OnOk result (aggregates.new.found ≡ (aggregates.old.found || list_any is_aggregated exprs.now)) }
    ensures arguments { OnOk result (lent aggregates.new.arguments.items ≡ lent aggregates.old.arguments.items ++ flat_map arguments_in exprs.now) }
{
    for expr in exprs {
        add_chain(alloc, expr, aggregates)?;
    }
    Ok(())
}

impl<'a> Aggregates<'a> {
    pub fn new(alloc: Global) -> Aggregates<'a>
        ensures found { result.found ≡ false }
        ensures arguments { lent result.arguments.items ≡ [] }
    {
        Aggregates {
            found: false,
            arguments: Vec::new(alloc),
        }
    }

    /// With those of the expression behind.
    pub fn with(mut self, alloc: Global, expr: &'a Expr) -> Result<Aggregates<'a>, NoMemory>
        ensures found { IfOk result (λ a. a.found ≡ (self.entry.found || is_aggregated expr.now)) }
        ensures arguments { IfOk result (λ a. lent a.arguments.items ≡ lent self.entry.arguments.items ++ arguments_in expr.now) }
    {
        add_chain(alloc, expr, &mut self)?;
        Ok(self)
    }

    /// With those of the expressions behind, one after another.
    pub fn with_all(mut self, alloc: Global, exprs: &'a [Expr]) -> Result<Aggregates<'a>, NoMemory>
        ensures found { IfOk result (λ a. a.found ≡ (self.entry.found || list_any is_aggregated exprs.now)) }
        ensures arguments { IfOk result (λ a. lent a.arguments.items ≡ lent self.entry.arguments.items ++ flat_map arguments_in exprs.now) }
    {
        add_list(alloc, exprs, &mut self)?;
        Ok(self)
    }
}

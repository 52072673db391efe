ghost use Rattle.std.specs.Prelude.{◌≡◌, ◌≢◌, ◌++◌, IfOk, OnOk, OnErr, MatchOption};
ghost use Rattle.wat_ast.specs.declared.expression.BinaryOp.TheVariants.{And};
ghost use Rattle.wat_ast.specs.declared.expression.Expr.{Expr as Tree};
ghost use Rattle.wat_ast.specs.declared.expression.Expr.TheVariants as tree;
ghost use Rattle.wat_interval.specs.Tests.{is_bounding};
ghost use Rattle.wat_conjuncts.specs.Conjuncts.{compared, conjuncts_in, conjuncts_of};

use std::alloc::Global;
use std::marker::Model;
use wat_ast::{BinaryOp, Expr};
use wat_list::NoMemory;

/// A comparison of two expressions, which are lent.
#[derive(Drop)]
pub struct LentComparison<'a> {
    pub(crate) op: BinaryOp,
    pub(crate) left: &'a Expr,
    pub(crate) right: &'a Expr,
}

impl<'a> Model for LentComparison<'a> {
    ghost use Rattle.std.specs.Coded.{codes};
    ghost use Rattle.wat_ast.specs.contracts.expression.Expr as e;
    ghost use Rattle.wat_conjuncts.specs.Conjuncts.{Comparison};

    ghost Value = { Comparison };

    ghost coded = { Prim.hlevel (codes, e.the_row.coded) };

    ghost view = { λ x. record { op = x.op; left = x.left.now; right = x.right.now } };
}

fn is_bounding(op: BinaryOp) -> bool
    ensures { result ≡ is_bounding op }
{
    matches!(
        op,
        BinaryOp::Equal | BinaryOp::Less | BinaryOp::AtMost | BinaryOp::Greater | BinaryOp::AtLeast
    )
}

// The two sides, where the expression is an AND.
fn sides_of_and(expr: &Expr) -> Option<(&Expr, &Expr)>
    ensures { MatchOption result ((left right : Tree) → expr.now ≢ tree.Binary And left right) (λ sides. expr.now ≡ tree.Binary And sides.0.now sides.1.now) }
{
    match expr {
        Expr::Binary { op, left, right } => match op {
            BinaryOp::And => Some((left.get(), right.get())),
            _ => None,
        },
        _ => None,
    }
}

// The comparisons of an expression that is no AND.
#[tactic(auto, using(crate::proofs::ConjunctLemmas::parts))]
fn add_comparisons<'a>(
    expr: &'a Expr,
    conjuncts: &mut Vec<LentComparison<'a>>,
) -> Result<(), NoMemory>
    requires { (left right : Tree) → expr.now ≢ tree.Binary And left right }
    ensures { OnOk result (conjuncts.new.items ≡ conjuncts.old.items ++ conjuncts_in expr.now) }
{
    match expr {
        Expr::Binary { op, left, right } => {
            if is_bounding(*op) {
                let (op, left, right) = (*op, left.get(), right.get());
                conjuncts.push(LentComparison { op, left, right })?;
            }
            Ok(())
        }
        Expr::Between {
            arg,
            low,
            high,
            negated,
        } => {
            if *negated {
                return Ok(());
            }
            let (left, low, high) = (arg.get(), low.get(), high.get());
            conjuncts.push(LentComparison {
                op: BinaryOp::AtLeast,
                left,
                right: low,
            })?;
            conjuncts.push(LentComparison {
                op: BinaryOp::AtMost,
                left,
                right: high,
            })?;
            Ok(())
        }
        Expr::Literal(_)
        | Expr::Named { .. }
        | Expr::Placed { .. }
        | Expr::Unary { .. }
        | Expr::IsNull { .. }
        | Expr::InList { .. }
        | Expr::Aggregate { .. } => Ok(()),
    }
}

/// The comparisons among the parts of the condition that are joined by AND, in text order.
pub fn conjuncts_in(alloc: Global, condition: &Expr) -> Result<Vec<LentComparison<'_>>, NoMemory>
    ensures { IfOk result (λ xs. xs.items ≡ conjuncts_in condition.now) }
{
    let mut conjuncts = Vec::new(alloc);
    let mut rest = Vec::new(alloc);
    rest.push(condition)?;
    while let Some(expr) = rest.pop() {
        match sides_of_and(expr) {
            Some((left, right)) => {
                rest.push(right)?;
                rest.push(left)?;
            }
            None => add_comparisons(expr, &mut conjuncts)?,
        }
    }
    Ok(conjuncts)
}

/// Those of WHERE, and none where it is absent.
pub fn conjuncts_of(
    alloc: Global,
    filter: &Option<Expr>,
) -> Result<Vec<LentComparison<'_>>, NoMemory>
    ensures { IfOk result (λ xs. xs.items ≡ conjuncts_of filter.now) }
{
    match filter {
        Some(condition) => conjuncts_in(alloc, condition),
        None => Ok(Vec::new(alloc)),
    }
}

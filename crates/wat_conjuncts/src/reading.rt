ghost use Rattle.std.specs.Prelude.{◌≡◌, IfOk};
ghost use Rattle.std.specs.List.{list_all};
ghost use Rattle.wat_walk.specs.Chain.{IsOperand};
ghost use Rattle.wat_conjuncts.specs.Limits.{is_among, reads_only};

use std::alloc::Global;
use wat_ast::Expr;
use wat_list::NoMemory;
use wat_walk::Spine;

pub(crate) fn is_among(sources: &[usize], source: usize) -> bool
    ensures { result ≡ is_among sources.now source }
{
    sources.iter().any(|s| *s == source)
}

/// Whether the expression reads columns of these sources alone.
// Operand by operand, so that a long chain takes little of the stack.
#[cycle(reading)]
pub(crate) fn reads_only(alloc: Global, sources: &[usize], expr: &Expr) -> Result<bool, NoMemory>
    ensures { IfOk result (λ b. b ≡ reads_only sources.now expr.now) }
{
    let spine = Spine::of(alloc, expr)?;
    let mut all = operand_reads_only(alloc, sources, spine.first)?;
    for operation in &spine.operations {
        let right = reads_only(alloc, sources, operation.right)?;
        all = all && right;
    }
    Ok(all)
}

#[cycle(reading)]
#[tactic(auto, using(crate::proofs::ReadingLemmas::kinds))]
fn operand_reads_only(alloc: Global, sources: &[usize], expr: &Expr) -> Result<bool, NoMemory>
    requires { IsOperand expr.now }
    ensures { IfOk result (λ b. b ≡ reads_only sources.now expr.now) }
{
    match expr {
        Expr::Literal(_) => Ok(true),
        Expr::Named { .. } => Ok(true),
        Expr::Placed { source, .. } => Ok(is_among(sources, *source as usize)),
        Expr::Unary { arg, .. } => reads_only(alloc, sources, arg.get()),
        Expr::Binary { .. } => unreachable!(),
        Expr::IsNull { arg, .. } => reads_only(alloc, sources, arg.get()),
        Expr::Between { arg, low, high, .. } => {
            let arg = reads_only(alloc, sources, arg.get())?;
            let low = reads_only(alloc, sources, low.get())?;
            let high = reads_only(alloc, sources, high.get())?;
            Ok(arg && low && high)
        }
        Expr::InList { arg, items, .. } => {
            let arg = reads_only(alloc, sources, arg.get())?;
            let items = all_read_only(alloc, sources, items.as_slice())?;
            Ok(arg && items)
        }
        Expr::Aggregate { .. } => Ok(true),
    }
}

#[cycle(reading)]
fn all_read_only(alloc: Global, sources: &[usize], exprs: &[Expr]) -> Result<bool, NoMemory>
    ensures { IfOk result (λ b. b ≡ list_all (reads_only sources.now) exprs.now) }
{
    for expr in exprs {
        if !reads_only(alloc, sources, expr)? {
            return Ok(false);
        }
    }
    Ok(true)
}

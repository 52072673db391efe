ghost use Rattle.std.specs.Prelude.{◌≡◌, ◌&&◌, IfOk};
ghost use Rattle.wat_conjuncts.specs.Limits.{is_column, limit_on, limits_on, reads_only, turned};
ghost use Rattle.wat_interval.specs.Tests.{is_equality};

use crate::conjuncts::LentComparison;
use crate::reading::reads_only;
use std::alloc::Global;
use std::marker::Model;
use wat_ast::{BinaryOp, Expr};
use wat_list::NoMemory;

/// What is to hold between a column, which stands on the left, and the value of an expression, which is lent.
#[derive(Drop)]
pub struct LentLimit<'a> {
    pub(crate) op: BinaryOp,
    pub(crate) value: &'a Expr,
}

impl<'a> Model for LentLimit<'a> {
    ghost use Rattle.std.specs.Coded.{codes};
    ghost use Rattle.wat_ast.specs.contracts.expression.Expr as e;
    ghost use Rattle.wat_conjuncts.specs.Limits.{Limit};

    ghost Value = { Limit };

    ghost coded = { Prim.hlevel (codes, e.the_row.coded) };

    ghost view = { λ l. record { op = l.op; value = l.value.now } };
}

impl<'a> LentLimit<'a> {
    /// Whether the column is to be equal to the value.
    pub fn is_equality(&self) -> bool
        ensures { result ≡ is_equality self.now.op }
    {
        matches!(self.op, BinaryOp::Equal)
    }
}

fn turned(op: BinaryOp) -> BinaryOp
    ensures { result ≡ turned op }
{
    match op {
        BinaryOp::Less => BinaryOp::Greater,
        BinaryOp::Greater => BinaryOp::Less,
        BinaryOp::AtMost => BinaryOp::AtLeast,
        BinaryOp::AtLeast => BinaryOp::AtMost,
        _ => op,
    }
}

#[tactic(auto, using(crate::proofs::LimitLemmas::columns))]
fn is_column(expr: &Expr, source: usize, column: u8) -> bool
    ensures { result ≡ is_column source column expr.now }
{
    match expr {
        Expr::Placed {
            source: s,
            column: c,
        } => *s as usize == source && *c == column,
        Expr::Literal(_)
        | Expr::Named { .. }
        | Expr::Unary { .. }
        | Expr::Binary { .. }
        | Expr::IsNull { .. }
        | Expr::Between { .. }
        | Expr::InList { .. }
        | Expr::Aggregate { .. } => false,
    }
}

// Whether one side of a comparison is the column, and the other reads earlier sources alone.
fn limits(
    alloc: Global,
    earlier: &[usize],
    source: usize,
    column: u8,
    side: &Expr,
    other: &Expr,
) -> Result<bool, NoMemory>
    ensures { IfOk result (λ b. b ≡ (is_column source column side.now && reads_only earlier.now other.now)) }
{
    if is_column(side, source, column) {
        reads_only(alloc, earlier, other)
    } else {
        Ok(false)
    }
}

fn limit_on<'a>(
    alloc: Global,
    earlier: &[usize],
    source: usize,
    column: u8,
    conjunct: &LentComparison<'a>,
) -> Result<Option<LentLimit<'a>>, NoMemory>
    ensures { IfOk result (λ l. l ≡ limit_on earlier.now source column conjunct.now) }
{
    let (left, right) = (conjunct.left, conjunct.right);
    if limits(alloc, earlier, source, column, left, right)? {
        let op = conjunct.op;
        return Ok(Some(LentLimit { op, value: right }));
    }
    if limits(alloc, earlier, source, column, right, left)? {
        let op = turned(conjunct.op);
        return Ok(Some(LentLimit { op, value: left }));
    }
    Ok(None)
}

/// What the comparisons say of a column of a source, where the earlier sources come before it in a
/// plan: those that compare it, on either side, with an expression over earlier sources.
pub fn limits_on<'a>(
    alloc: Global,
    conjuncts: &[LentComparison<'a>],
    earlier: &[usize],
    source: usize,
    column: u8,
) -> Result<Vec<LentLimit<'a>>, NoMemory>
    ensures { IfOk result (λ ls. ls.items ≡ limits_on conjuncts.now earlier.now source column) }
{
    let mut limits = Vec::new(alloc);
    for conjunct in conjuncts {
        if let Some(limit) = limit_on(alloc, earlier, source, column, conjunct)? {
            limits.push(limit)?;
        }
    }
    Ok(limits)
}

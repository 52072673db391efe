ghost use Rattle.std.specs.Prelude.{◌≡◌, IfOk};
ghost use Rattle.wat_expr.specs.Evaluation.{outcome_of};
ghost use Rattle.wat_group.specs.Private.{over_of};

use std::alloc::Global;
use wat_ast::Expr;
use wat_expr::{Outcome, eval, eval_over};
use wat_list::NoMemory;
use wat_value::Combination;

/// What an expression is taken over: a combination alone, or one of a group with the whole group for aggregates.
#[derive(Drop)]
pub struct Taken<'a> {
    pub rows: &'a Combination,
    pub group: Option<Vec<&'a Combination>>,
}

impl<'a> Taken<'a> {
    pub fn outcome(&self, alloc: Global, expr: &Expr) -> Result<Outcome, NoMemory>
        ensures { IfOk result (λ o. o ≡ outcome_of expr.now (over_of self.now)) }
    {
        match &self.group {
            None => eval(alloc, expr, self.rows),
            Some(group) => eval_over(alloc, expr, self.rows, group.as_slice()),
        }
    }
}

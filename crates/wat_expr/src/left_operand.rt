ghost use Rattle.std.specs.Prelude.{◌≡◌, IfOk};
ghost use Rattle.wat_expr.specs.Private.{outcome_so_far};
ghost use Rattle.wat_expr.specs.Operators.{binary, concatenation};

use crate::operators::{arithmetic, comparison};
use crate::outcome::Outcome;
use std::alloc::Global;
use wat_ast::BinaryOp;
use wat_list::NoMemory;
use wat_value::{Text, Value};

/// What stands to the left of an operator.
///
/// A text that was joined keeps its room, so that a long chain of `||` does not copy it again at each operator.
#[derive(Drop)]
pub(crate) enum LeftOperand {
    Joined(String),
    Computed(Outcome),
}

impl LeftOperand {
    pub(crate) fn into_outcome(self, alloc: Global) -> Result<Outcome, NoMemory>
        ensures { IfOk result (λ o. o ≡ outcome_so_far self) }
    {
        match self {
            LeftOperand::Joined(text) => {
                let text = Text::of(alloc, text.as_str())?;
                Ok(Outcome::Is(Value::Text(text)))
            }
            LeftOperand::Computed(outcome) => Ok(outcome),
        }
    }

    fn joined(self, alloc: Global, right: Outcome) -> Result<LeftOperand, NoMemory>
        ensures { IfOk result (λ whole. outcome_so_far whole ≡ concatenation (outcome_so_far self) right) }
    {
        match (self, right) {
            (LeftOperand::Joined(mut front), Outcome::Is(Value::Text(back))) => {
                front.push_str(back.as_str())?;
                Ok(LeftOperand::Joined(front))
            }
            (
                LeftOperand::Computed(Outcome::Is(Value::Text(front))),
                Outcome::Is(Value::Text(back)),
            ) => {
                let mut text = String::from_str(alloc, front.as_str())?;
                text.push_str(back.as_str())?;
                Ok(LeftOperand::Joined(text))
            }
            (LeftOperand::Joined(_), Outcome::Is(Value::Null))
            | (LeftOperand::Computed(Outcome::Is(_)), Outcome::Is(Value::Null))
            | (LeftOperand::Computed(Outcome::Is(Value::Null)), Outcome::Is(_)) => {
                Ok(LeftOperand::Computed(Outcome::Is(Value::Null)))
            }
            (_, _) => Ok(LeftOperand::Computed(Outcome::Error)),
        }
    }

    /// The operation with this on its left.
    #[tactic(auto, unfolding(crate::specs::Operators::binary))]
    pub(crate) fn operated(
        self,
        alloc: Global,
        op: BinaryOp,
        right: Outcome,
    ) -> Result<LeftOperand, NoMemory>
        ensures { IfOk result (λ whole. outcome_so_far whole ≡ binary op (outcome_so_far self) right) }
    {
        match op {
            BinaryOp::And => {
                let left = self.into_outcome(alloc)?;
                Ok(LeftOperand::Computed(left.and(right)))
            }
            BinaryOp::Or => {
                let left = self.into_outcome(alloc)?;
                Ok(LeftOperand::Computed(left.or(right)))
            }
            BinaryOp::Equal
            | BinaryOp::Unequal
            | BinaryOp::Less
            | BinaryOp::AtMost
            | BinaryOp::Greater
            | BinaryOp::AtLeast => {
                let left = self.into_outcome(alloc)?;
                Ok(LeftOperand::Computed(comparison(op, &left, &right)))
            }
            BinaryOp::Add | BinaryOp::Subtract | BinaryOp::Multiply | BinaryOp::Divide => {
                let left = self.into_outcome(alloc)?;
                Ok(LeftOperand::Computed(arithmetic(op, &left, &right)))
            }
            BinaryOp::Concat => self.joined(alloc, right),
        }
    }
}

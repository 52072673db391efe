//! The outcome of an expression over a combination of rows, and over a group of them.
#![tactic(auto)]

mod aggregates;
mod context;
mod evaluation;
mod left_operand;
mod operators;
mod outcome;

pub use evaluation::{eval, eval_over};
pub use outcome::Outcome;

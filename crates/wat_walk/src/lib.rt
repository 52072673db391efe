//! The parts of expressions and queries, and a walk down a chain of operations that takes no recursion.
#![tactic(auto)]

mod aggregates;
mod spine;

pub use aggregates::Aggregates;
pub use spine::{Operation, Spine};

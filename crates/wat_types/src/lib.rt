//! The types of expressions, and the rules of types that an expression breaks by its operands.
#![tactic(auto)]

mod typing;

pub use typing::{ExprType, Typing, any_aggregated, breaks, lesser, smallest};

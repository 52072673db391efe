//! What the parts of a condition that are joined by AND say of the columns of its sources.
#![tactic(auto)]

mod conjuncts;
mod laws;
mod limits;
mod reading;
mod usable;

pub use conjuncts::{LentComparison, conjuncts_of};
pub use laws::outside_law;
pub use limits::{LentLimit, limits_on};
pub use usable::tests_on;

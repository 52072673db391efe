//! How many pages a state needs. Definitions and laws alone.
#![tactic(auto)]

mod laws;

pub use laws::budget_laws;

//! What a statement means over tables: its reply, and the acts that it makes. The crate holds
//! definitions and laws of them; it computes nothing.
#![tactic(auto)]

mod laws;
mod reply;

pub use laws::{acts_laws, made_laws, meaning_laws, worked_cases};
pub use reply::{Meaning, Reply};

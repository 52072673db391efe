//! The session of one script, whose statements are answered by turns over the tables, is one serial history. The crate holds
//! definitions and a law of them; it computes nothing.
#![tactic(auto)]

mod laws;

pub use laws::one_history_law;

//! What the records of the transaction log make of the tables: definitions, and their laws.
#![tactic(auto)]

mod laws;

pub use laws::{committed_laws, replay_laws};

//! A statement in steps that runs alone: driven over rows that nothing but its own changes alters, it ends, and is
//! answered what it means.
//! The crate holds definitions and their laws; it computes nothing.
#![tactic(auto)]

mod laws;

pub use laws::{driven_law, ends_law};

//! The tables of a database in memory with their indexes, as a source of rows for statements in steps.
#![tactic(auto)]

mod laws;
mod source;

pub use laws::{change_law, made_law};
pub use source::IndexedTables;

//! The names in a statement: which are refused, and the statement with its columns in their places.
#![tactic(auto)]

mod columns;
mod places;

pub use columns::{assigned_key, columns_refusal, source_refusal, table_refusal};
pub use places::placed_statement;

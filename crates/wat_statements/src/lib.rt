//! Reads statements, each by its rule of the grammar.
#![tactic(auto)]

mod change;
mod create;
mod list;
mod query;
mod reading;
mod transaction;

pub use reading::statement;

//! The tables of a database as SQL: what makes them again, as statements.
#![tactic(auto)]

mod dumping;
mod writing;

pub use dumping::dump;

//! Names of tables, columns, indexes and savepoints.
#![tactic(auto)]

mod name;

pub use name::Name;

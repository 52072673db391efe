//! The tables of a database with their rows, each table a map by its primary key, and the acts that
//! change them.
#![tactic(auto)]

mod stored_table;
mod tables;

pub use stored_table::StoredTable;
pub use tables::Tables;

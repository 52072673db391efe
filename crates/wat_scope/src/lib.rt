//! The sources of a statement under their visible names, and where they have a column.
#![tactic(auto)]

mod scope;

pub use scope::{Found, Scope, Visible, column_in, columns_of, find, query_scope, table_scope};

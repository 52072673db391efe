//! The cells of one page of rows, read and changed.
#![tactic(auto)]

mod edit;

pub use edit::{Edit, damaged, read_cells, rewrite, write_cells};

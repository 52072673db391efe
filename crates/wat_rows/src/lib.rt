//! Rows on pages: the cell of a row, and what it is that pages hold the rows of tables.
#![tactic(auto)]

mod cell;
mod laws;
mod name;

pub use cell::{row_cell, row_in_cell};
pub use laws::size_law;
pub use name::RowName;

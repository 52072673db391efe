//! Where the rows of tables stand, in memory: on which page, and as which of its cells.
#![tactic(auto)]

mod directory;
mod laws;
mod places;
mod row_page;

pub use directory::{Directory, Spot};
pub use laws::count_law;
pub use places::Places;
pub use row_page::RowPage;

//! Pages of 4,096 bytes, and the cells of a page of rows.
#![tactic(auto)]

mod laws;
mod page;
mod row_page;

pub use laws::cells_law;
pub use page::Page;
pub use row_page::{Cell, Cells, cells, put_cells};

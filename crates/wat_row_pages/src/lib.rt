//! The rows of a database's pages, taken over at opening: those of all pages that no chain and no list has, in ascending order.
#![tactic(auto)]

mod taking;

pub use taking::take_row_pages;

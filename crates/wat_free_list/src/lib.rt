//! The list of the free pages, read from its first page on: at opening, when nothing is known of a page yet.
#![tactic(auto)]

mod reading;

pub use reading::{page_set, read_free_list};

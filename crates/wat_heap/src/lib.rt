//! The rows of all tables, on pages.
#![tactic(auto)]

mod heap;
mod taking;

pub use heap::Heap;

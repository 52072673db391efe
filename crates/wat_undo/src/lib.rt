//! The changes of each connection that stand, to be rolled back: in memory, and saved on a chain of pages.
#![tactic(auto)]

mod lists;
mod reading;
mod saving;
mod undo;
mod writing;

pub use lists::Changes;
pub use undo::Undo;

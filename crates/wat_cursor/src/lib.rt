//! Reads the tokens of a statement one by one.
#![tactic(auto)]

mod cursor;
mod fault;
mod kinds;

pub use cursor::Cursor;
pub use fault::Fault;

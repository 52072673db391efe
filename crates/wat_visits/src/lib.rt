//! The scans of a statement, one visit after another: what a visit finds in a source of rows, what it wants, and what it makes of
//! the scans.
#![tactic(auto)]

mod nest;
mod progress;
mod seeing;
mod source;
mod taking;
mod wanting;

pub use nest::Nest;
pub use seeing::index_key;
pub use source::{RowSource, SourceError};

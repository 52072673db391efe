//! The store of a database: changes, commits, undoing and changes of the schema on pages and log, for any number of
//! connections, and what a stop leaves of each.
#![tactic(auto)]

mod changes;
mod composed;
mod saving;
mod steps;
mod store;
mod taking_back;

pub use composed::{commit_noted, flush_noted, save};
pub use store::{Store, StoreRefusal};

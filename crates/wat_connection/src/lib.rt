//! One connection of many over a database: the statements of its script that are left and those that are answered, its
//! options, its open transaction with the savepoints, and the statement that it has under way.
#![tactic(auto)]

mod connection;
mod reading;
mod savepoints;
mod transaction;

pub use connection::{Closed, Connection};
pub use reading::Reading;
pub use transaction::{Transaction, Undone, acts_of};

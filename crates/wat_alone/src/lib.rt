//! One connection alone over the tables of a database: what each statement is answered and does, but for the disk.
#![tactic(auto)]

mod connection;
mod making;
mod names;

pub use connection::{Connection, Turned};
pub use names::{names_after, names_of};

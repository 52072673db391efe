//! Whether the changes of connections that stand can be undone: tried in memory, on the rows that they are of.
#![tactic(auto)]

mod asked;
mod trial;
mod undoing;

pub use undoing::can_undo;

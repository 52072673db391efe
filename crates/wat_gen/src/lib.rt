//! Sessions that are made up: from a number, what eight connections ask, and in which order they go on.
#![tactic(auto)]

mod draws;
mod laws;
mod made_up;
mod opening;
mod schedule;
mod statement;

pub use laws::{session_laws, worked_cases};
pub use made_up::scripts;

//! What objects hold on their own pages between two checkpoints is what a checkpoint of the pages stands for. Definitions and
//! laws alone.
#![tactic(auto)]

mod laws;

pub use laws::{held_laws, linked_law, opened_law, owned_law};

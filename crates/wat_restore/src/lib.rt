//! What the main file and the checkpoint log stand for together, and what a stop may leave of a checkpoint. Definitions and laws alone.
#![tactic(auto)]

mod laws;

pub use laws::restore_laws;

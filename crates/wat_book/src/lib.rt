//! Pages and whose they are. Definitions and laws alone.
#![tactic(auto)]

mod laws;

pub use laws::{chain_law, frame_law, payload_laws, step_laws};

//! A log of frames in one file, each of which is there after a stop as a whole or not at all.
#![tactic(auto)]

mod frame;
mod gate_log;
mod laws;

pub use frame::Frame;
pub use gate_log::{GateLog, GatePlace, GateRefusal};
pub use laws::gate_log_law;

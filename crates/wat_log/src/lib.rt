//! The transaction log: records are noted in memory, and flushed to a gate log as one frame, so that a stop leaves all
//! records of a frame or none.
#![tactic(auto)]

mod laws;
mod noting;
mod reading;
mod record_log;

pub use laws::log_laws;
pub use reading::read_records;
pub use record_log::{LOG, Log};

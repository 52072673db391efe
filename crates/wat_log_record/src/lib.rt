//! The records of the transaction log, and the definitions of their bytes.
#![tactic(auto)]

mod laws;
mod log_record;

pub use laws::spelling_laws;
pub use log_record::{LogRecord, LogRecords};

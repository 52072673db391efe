//! Records of the transaction log to bytes, and back.
#![tactic(auto)]

mod reading;
mod writing;

pub use reading::{read_change, read_count, read_index, read_number, read_record, read_table};
pub use wat_log_record::{LogRecord, LogRecords};
pub use writing::{
    push_change, push_changed, push_count, push_index, push_number, push_table, write_record,
};

//! Payloads of any length on chains of pages.
#![tactic(auto)]

mod link;
mod parts;
mod reading;
mod writing;

pub use reading::{Chain, read_chain};
pub use writing::write_chain;

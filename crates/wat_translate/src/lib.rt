//! A log is read back as SQL: its committed transactions as statements, in the order of their commits.
#![tactic(auto)]

mod reader;
mod reading;
mod refusal;
mod translating;
mod writing;

pub use refusal::LogRefusal;
pub use translating::translate;

//! The schema to the bytes of a payload, and back.
#![tactic(auto)]

mod reading;
mod refusal;
mod writing;

pub use reading::schema_from;
pub use refusal::SchemaRefusal;
pub use writing::schema_payload;

//! The checks of a statement against a schema, in their order, and the schema changes that statements make.
#![tactic(auto)]

mod changes;
mod checking;
mod statements;

pub use changes::change_of;
pub use checking::{CheckRefusal, check};

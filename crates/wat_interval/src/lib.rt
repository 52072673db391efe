//! The interval of keys that tests on the columns of an index give.
#![tactic(auto)]

mod edge;
mod emptiness;
mod interval;
mod laws;
mod test;

pub use emptiness::is_empty;
pub use interval::interval_of;
pub use laws::interval_law;
pub use test::{Test, Tests};

//! The transactions of a database in a gate log: making it, opening it, and what a COMMIT and a change of the schema add to it.
#![tactic(auto)]

mod laws;
mod making;
mod opening;
mod pending;
mod reading;
mod saving;

pub use laws::{restart_laws, writing_law};
pub use making::{InitRefusal, init};
pub use opening::{LOG, OpenWhy, Opened, open};
pub use pending::Pending;
pub use saving::{SaveRefusal, save_schema};

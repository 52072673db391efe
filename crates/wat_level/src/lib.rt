//! The locks that a visit of a scan and a change of a row want.
#![tactic(auto)]

mod change;
mod laws;
mod visit;
mod wanted;

pub use change::{Spot, Spots, change_wants};
pub use laws::{change_laws, order_laws};
pub use visit::{Visit, visit_wants};

//! The cycle of waiting connections that a request would close, and that there is never one.
#![tactic(auto)]

mod blockers;
mod laws;
mod request;
mod walk;

pub use blockers::cycle;
pub use laws::acyclic_laws;
pub use request::{Edge, Edges, Request, Requests};
pub use walk::{Arc, Nodes, named_cycle};

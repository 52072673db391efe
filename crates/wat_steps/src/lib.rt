//! One step of one connection, of any number of connections: what it finds and asks, what it is answered, and what it
//! leaves. The crate holds definitions and laws of them; it computes nothing.
#![tactic(auto)]

mod laws;

pub use laws::{absent_law, stop_law, worked_steps};

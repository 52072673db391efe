//! What the turns of one connection alone say of its session. The crate holds definitions and laws of them; it computes
//! nothing.
#![tactic(auto)]

mod laws;

pub use laws::turn_laws;

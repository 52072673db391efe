//! What a session tells: which answers a script may have, the one history of its commits, and that it is serial. The
//! crate holds definitions and laws of them; it computes nothing.
#![tactic(auto)]

mod laws;

pub use laws::{answer_laws, history_laws, open_laws, serial_laws, single_laws, worked_cases};

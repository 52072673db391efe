//! Statements in steps: what their scans find visit by visit, what is made of it, and what they are answered, over every tables
//! by which the visits answer. The crate holds definitions and laws of them; it computes nothing.
#![tactic(auto)]

mod laws;
mod scan;

pub use laws::{alone_law, change_laws, scan_laws, statement_laws, transaction_law};
pub use scan::{Scan, Seen, Taken};

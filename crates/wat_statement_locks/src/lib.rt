//! The locks of connections whose statements go in steps: got step by step, and freed with a scan's visit, with a statement
//! and with a transaction.
#![tactic(auto)]

mod freeing;
mod inheritance;
mod locks;
mod scans;

pub use inheritance::inheriting;
pub use locks::StatementLocks;

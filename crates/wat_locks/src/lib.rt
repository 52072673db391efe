//! Locks: which conflict, who holds them, and what a connection that asks is told.
#![tactic(auto)]

mod find;
mod held;
mod laws;
mod lock;
mod locks;
mod table;
mod want;

pub use held::{Against, Asked, Held};
pub use laws::{lock_laws, named_laws};
pub use lock::{Lock, LockKind, Resource};
pub use locks::Locks;
pub use want::{Want, Wants};

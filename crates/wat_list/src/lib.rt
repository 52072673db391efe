//! One list type for every element type, which contracts see as the list of its items.
#![tactic(auto)]

mod copied;
mod items;
mod laws;
mod reserved;

pub use copied::Copied;
pub use items::item;
pub use laws::once_law;
pub use reserved::Reserved;
pub use sqlite_items::{Boxed, Items};

/// The want of memory, which a call that allocates may answer.
pub type NoMemory = std::alloc::AllocError;

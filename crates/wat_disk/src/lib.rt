//! The disk: eight files, what a read gives of them, and what a stop may leave.
#![tactic(auto)]

mod bytes;
mod disk;
mod memory;
mod replay;
mod synced;

pub use disk::{Disk, DiskError, DiskFault, FileId};
pub use memory::{Deed, Entry, MemoryDisk};
pub use replay::Pick;
pub use synced::write_synced;

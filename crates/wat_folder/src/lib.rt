//! The disk of a real program: eight files of the current folder, which one program has at a time.
#![tactic(auto)]

mod disk;
mod exclusive;
mod files;
mod folder;
mod opened;

pub use disk::FileDisk;
pub use exclusive::Exclusive;
pub use folder::Holder;

//! The pages of a database over a disk: changed in memory, written in checkpoints, each of which a stop leaves whole or not at all.
#![tactic(auto)]

mod header;
mod pages;
mod within;

pub use header::Header;
pub use pages::Pages;
pub use wat_images::PageRefusal;
pub use within::Within;

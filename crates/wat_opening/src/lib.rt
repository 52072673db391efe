//! A database is opened: its files are read, the records past the checkpoint are made again on its pages, the changes that stand
//! are rolled back, and where there was anything to do a checkpoint is made.
#![tactic(auto)]

mod bringing;
mod empty;
mod opening;
mod refusal;
mod starting;

pub use opening::open;
pub use refusal::{OpenRefusal, OpenWhy};

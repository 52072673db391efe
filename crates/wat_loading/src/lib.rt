//! The first half of opening a database: its three files are read into memory, and each place at which they may fail is
//! tested, up to the log's frames. The records past the checkpoint aren't read yet.
#![tactic(auto)]

mod laws;
mod loading;
mod log;
mod payloads;
mod state;

pub use laws::whole_law;
pub use loading::{Loaded, load};

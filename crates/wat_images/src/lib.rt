//! The pages of the main file, and the checkpoint log that keeps their images while they are written.
#![tactic(auto)]

mod checkpoint;
mod main_file;
mod reading;
mod refusal;
mod saving;

pub use checkpoint::{lay_images, save_checkpoint};
pub use reading::{CheckpointLog, open_images, read_stored};
pub use refusal::PageRefusal;

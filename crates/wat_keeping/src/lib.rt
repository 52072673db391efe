//! How the facts on stops of three files make one on the database: a checkpoint on pages and the frames of a log. Definitions
//! and laws alone.
#![tactic(auto)]

mod laws;

pub use laws::{append_laws, behind_law, checkpoint_laws, image_laws, kept_laws, pages_laws};

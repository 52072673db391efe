//! The session of one script over the tables of a database and their log.
#![tactic(auto)]

mod player;
mod playing;

pub use playing::play;

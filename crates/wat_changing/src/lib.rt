//! What a statement makes of the combinations that its scans met, by the definitions that it keeps: rows to show, or changes, all of
//! which are tested before the first one is made.
#![tactic(auto)]

mod counted;
mod deciding;
mod inserting;
mod meeting;
mod updating;

pub use counted::Counted;
pub use deciding::{Decision, decide};

//! Schedules: which connection goes on next, and how far, as a text and as the list that it stands for.
#![tactic(auto)]

mod item;
mod laws;
mod reading;

pub use item::{Item, Items};
pub use laws::{one_reading_law, worked_cases};
pub use reading::items;

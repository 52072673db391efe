//! A statement in steps: what it asks next of a source of rows, one visit or one change at a time, and what it is answered.
#![tactic(auto)]

mod asking;
mod begun;
mod changes;
mod next;
mod noticed;
mod run;
mod spots;

pub use next::Next;
pub use noticed::Noticed;
pub use run::Run;
pub use wat_visits::{RowSource, SourceError};

//! The statements of a script, and their trees.
#![tactic(auto)]

mod parse;
mod reading;
mod script;

pub use parse::{ParseRefusal, statement};
pub use reading::whole;
pub use script::{Span, Spans, statements};

//! Reads expressions.
#![tactic(auto)]

mod operators;
mod parts;
mod reader;
mod reading;

pub use reading::{column, expression, expressions};

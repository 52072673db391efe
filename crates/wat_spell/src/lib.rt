//! The spelling of statements.
#![tactic(auto)]

mod expression;
mod list;
mod spelling;
mod statement;
mod symbol;
mod writing;

pub use spelling::spell;

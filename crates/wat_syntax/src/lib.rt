//! The grammar of statements, as data.
#![tactic(auto)]

mod kind;
mod law;
mod nest;

pub use kind::Kind;
pub use law::{parsed_lists_have_members, parsing_is_exact, tokens_have_values};
pub use nest::Nest;

//! The types of a statement's expressions over a schema, and the smallest rule of types that the statement breaks.
#![tactic(auto)]

mod bare;
mod rules;
mod typing;

pub use rules::{QueryTypings, answer_given, delete_rule, query_rule, update_rule, values_given};
pub use typing::{type_at, typing_of, typings};

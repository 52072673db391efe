//! What a database has over its pages: the rows, the schema, and the changes that can be rolled back.
#![tactic(auto)]

mod altering;
mod chains;
mod lists;
mod objects;
mod of_row;
mod rows;

pub use chains::Roots;
pub use objects::Objects;

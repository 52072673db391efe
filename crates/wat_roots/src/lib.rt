//! What the header of a database leads to, read at opening: the chain of the catalog, that of the changes to roll back, and
//! the list of the free pages.
#![tactic(auto)]

mod roots;

pub use roots::{Roots, read_roots};

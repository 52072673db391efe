//! Which three files are those of a database, what they stand for, and where a walk over them fails. Definitions and laws
//! alone.
#![tactic(auto)]

mod laws;

pub use laws::{formed_laws, start_law, walk_laws};

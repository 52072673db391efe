//! What the payloads of the two chains spell: the schema, and the changes of each connection that stand. Definitions and
//! laws alone.
#![tactic(auto)]

mod laws;

pub use laws::spelled_laws;

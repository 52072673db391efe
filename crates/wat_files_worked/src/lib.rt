//! The definition of a database's files, tried on worked bytes: whole ones, and such with one thing broken. Laws alone.
#![tactic(auto)]

mod laws;

pub use laws::worked_laws;

//! A new database: its three files, made where none has a byte.
#![tactic(auto)]

mod bytes;
mod making;
mod writing;

pub use making::{CreateRefusal, create};

//! Indexes: the keys of a table's rows in order, and the first of them from a bound on.
#![tactic(auto)]

mod laws;
mod scan_index;
mod vec_index;

pub use laws::{cut_law, key_set_law};
pub use scan_index::{IndexError, ScanIndex};
pub use vec_index::VecIndex;

//! The indexes of the tables of a database, kept beside their rows: at each change of a row its keys are taken out and put in, so
//! that an index has the keys of the rows that stand, in order.
#![tactic(auto)]

mod indexes;
mod kept_index;
mod laws;

pub use indexes::Indexes;
pub use kept_index::KeptIndex;
pub use laws::index_law;

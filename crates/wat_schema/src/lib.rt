//! The schema of a database: its tables and indexes, how they are looked up, and which definitions
//! it allows.
#![tactic(auto)]

mod entry;
mod laws;
mod name_set;
mod owners;
mod refusal;
mod rules;
mod schema;

pub use laws::{
    change_law, inverse_law, look_up_law, order_law, same_law, stored_law, swap_law, tables_law,
    width_law,
};
pub use name_set::NameSet;
pub use refusal::Refusal;
pub use schema::Schema;

//! What a record of the transaction log does on anything that holds the tables and the changes that stand,
//! and a machine that does it in memory.
#![tactic(auto)]

mod applying;
mod change_lists;
mod changing;
mod machine;
mod tables;
mod target;
mod undoing;

pub use applying::apply_to;
pub use change_lists::{ChangeLists, Standing};
pub use machine::Machine;
pub use tables::RowTables;
pub use target::{Target, TargetError};
pub use undoing::undo_on;

//! The plan of a query: the order of its scans, their indexes and their intervals.
#![tactic(auto)]

mod choice;
mod laws;
mod plan;
mod source_table;

pub use choice::PlanStep;
pub use laws::{choice_law, outside_law, plan_law};
pub use plan::Plan;
pub use source_table::{SourceTable, SourceTables};
pub use wat_interval::is_empty;

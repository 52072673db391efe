//! What statements make of rows, by the definitions of tables alone: values, rows to insert, rows
//! after SET, and the first value that its column refuses.
#![tactic(auto)]

mod answering;
mod faults;
mod inserting;
mod updating;
mod values;

pub use answering::{answer, source_answer};
pub use faults::first_fault;
pub use inserting::given_rows;
pub use updating::{rows_after, sole_row};

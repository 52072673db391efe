use wat_schema::Refusal;
use wat_value::{Acts, Rows};

/// What a statement means over tables: its answer, and the acts that it makes, in their order.
#[derive(Debug, Drop)]
pub struct Meaning {
    pub answer: Reply,
    pub acts: Acts,
}

/// What a statement is answered over tables.
#[derive(Debug, Drop)]
pub enum Reply {
    /// The rows of a SELECT, in their order.
    Rows(Rows),
    /// How many rows were inserted.
    Inserted(u64),
    /// How many rows were updated: those that passed WHERE, also where SET left them as they were.
    Updated(u64),
    /// How many rows were deleted.
    Deleted(u64),
    /// A table or an index was created.
    Created,
    /// A table was dropped.
    Dropped,
    /// The first cause for which the statement is refused. It changes nothing.
    Refused(Refusal),
}

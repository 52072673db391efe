use wat_value::Rows;

/// What a query answers.
#[derive(Debug, Drop)]
pub enum Finished {
    Rows(Rows),
    /// Some outcome that the query needs is an error.
    Arithmetic,
}

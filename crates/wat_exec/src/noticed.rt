use wat_scans::Seen;
use wat_value::Row;

/// What was noticed of the rows of the moment when a step was asked.
#[derive(Debug, Drop)]
pub enum Noticed {
    /// What the visit found.
    AtPlace(Seen),
    /// The row that stands under the primary key of a row to be inserted.
    AtRow(Option<Row>),
}

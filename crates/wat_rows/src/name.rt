use wat_value::Key;

/// What a row is found by: its table and its primary key.
#[derive(Debug, Drop)]
pub struct RowName {
    pub table: u32,
    pub key: Key,
}

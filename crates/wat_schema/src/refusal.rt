use wat_value::{Key, Name};

/// Why a statement is refused.
#[derive(Debug, Drop)]
pub enum Refusal {
    /// The text is no statement: no statement goes on with what stands at that byte of the script.
    Syntax { at: u32 },
    NoTable { name: Name },
    /// The name is a column's that is not there, or a qualifier that names no table of the query.
    NoColumn { name: Name },
    /// Two tables of the query have the column, or are called by the name.
    Ambiguous { name: Name },
    /// The types do not go together; the smallest broken rule.
    WrongType { rule: u8 },
    TableExists { name: Name },
    IndexExists { name: Name },
    /// No table may be defined so; the smallest broken rule.
    BadTable { rule: u8 },
    /// No index may be defined so; the smallest broken rule.
    BadIndex { rule: u8 },
    /// A primary key column is set.
    KeyAssigned { name: Name },
    /// A result out of range, or a division by zero.
    Arithmetic,
    /// Null for a column that does not take it.
    NullValue { name: Name },
    /// An integer outside 32 bits.
    OutOfRange { name: Name },
    /// A text longer than its column allows.
    TooLong { name: Name },
    /// A row with that primary key stands.
    Duplicate { key: Key },
    NoSavepoint { name: Name },
}

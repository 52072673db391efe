use std::alloc::{AllocError, Global};
use wat_expr::Outcome;
use wat_schema::Refusal;
use wat_value::{Row, Rows, Value};

fn printed_value(alloc: Global, value: &Value) -> Result<String, AllocError> {
    match value {
        Value::Null => String::from_str(alloc, "NULL"),
        Value::Int(n) => format!(in alloc; "{n}"),
        Value::Text(text) => format!(in alloc; "'{}'", text.as_str()),
    }
}

pub(crate) fn printed_outcome(alloc: Global, outcome: &Outcome) -> Result<String, AllocError> {
    match outcome {
        Outcome::Is(value) => printed_value(alloc, value),
        Outcome::True => String::from_str(alloc, "True"),
        Outcome::False => String::from_str(alloc, "False"),
        Outcome::Unknown => String::from_str(alloc, "Unknown"),
        Outcome::Error => String::from_str(alloc, "Error"),
    }
}

/// The values in parentheses, with commas between.
pub(crate) fn printed_row(alloc: Global, row: &Row) -> Result<String, AllocError> {
    let mut printed = String::from_str(alloc, "(")?;
    for (i, value) in row.as_slice().iter().enumerate() {
        if i > 0 {
            printed.push_str(", ")?;
        }
        printed.push_str(printed_value(alloc, value)?.as_str())?;
    }
    printed.push_str(")")?;
    Ok(printed)
}

/// The rows with spaces between.
pub(crate) fn printed_rows(alloc: Global, rows: &Rows) -> Result<String, AllocError> {
    let mut printed = String::new(alloc);
    for (i, row) in rows.as_slice().iter().enumerate() {
        if i > 0 {
            printed.push_str(" ")?;
        }
        printed.push_str(printed_row(alloc, row)?.as_str())?;
    }
    if rows.is_empty() {
        printed.push_str("no rows")?;
    }
    Ok(printed)
}

/// The refusals of a check; there are no others here.
pub(crate) fn printed_refusal(alloc: Global, refusal: &Refusal) -> Result<String, AllocError> {
    match refusal {
        Refusal::NoTable { name } => format!(in alloc; "NoTable {}", name.as_str()),
        Refusal::NoColumn { name } => format!(in alloc; "NoColumn {}", name.as_str()),
        Refusal::Ambiguous { name } => format!(in alloc; "Ambiguous {}", name.as_str()),
        Refusal::WrongType { rule } => format!(in alloc; "WrongType {rule}"),
        Refusal::TableExists { name } => format!(in alloc; "TableExists {}", name.as_str()),
        Refusal::IndexExists { name } => format!(in alloc; "IndexExists {}", name.as_str()),
        Refusal::BadTable { rule } => format!(in alloc; "BadTable {rule}"),
        Refusal::BadIndex { rule } => format!(in alloc; "BadIndex {rule}"),
        Refusal::KeyAssigned { name } => format!(in alloc; "KeyAssigned {}", name.as_str()),
        _ => String::from_str(alloc, "no refusal of a check"),
    }
}

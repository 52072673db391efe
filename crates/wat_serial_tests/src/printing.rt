use std::alloc::{AllocError, Global};
use wat_meaning::Reply;
use wat_schema::Refusal;
use wat_value::{Rows, Value};

fn printed_value(alloc: Global, value: &Value) -> Result<String, AllocError> {
    match value {
        Value::Null => String::from_str(alloc, "NULL"),
        Value::Int(n) => format!(in alloc; "{n}"),
        Value::Text(text) => format!(in alloc; "'{}'", text.as_str()),
    }
}

// The values in parentheses, with commas between.
fn printed_row(alloc: Global, row: &[Value]) -> Result<String, AllocError> {
    let mut printed = String::from_str(alloc, "(")?;
    for (i, value) in row.iter().enumerate() {
        if i > 0 {
            printed.push_str(", ")?;
        }
        printed.push_str(printed_value(alloc, value)?.as_str())?;
    }
    printed.push_str(")")?;
    Ok(printed)
}

// The rows with spaces between.
fn printed_rows(alloc: Global, rows: &Rows) -> Result<String, AllocError> {
    let mut printed = String::new(alloc);
    for (i, row) in rows.as_slice().iter().enumerate() {
        if i > 0 {
            printed.push_str(" ")?;
        }
        printed.push_str(printed_row(alloc, row.as_slice())?.as_str())?;
    }
    if rows.is_empty() {
        printed.push_str("no rows")?;
    }
    Ok(printed)
}

pub(crate) fn printed_refusal(alloc: Global, refusal: &Refusal) -> Result<String, AllocError> {
    match refusal {
        Refusal::Syntax { at } => format!(in alloc; "Syntax {at}"),
        Refusal::NoTable { name } => format!(in alloc; "NoTable {}", name.as_str()),
        Refusal::KeyAssigned { name } => format!(in alloc; "KeyAssigned {}", name.as_str()),
        Refusal::IndexExists { name } => format!(in alloc; "IndexExists {}", name.as_str()),
        Refusal::Arithmetic => String::from_str(alloc, "Arithmetic"),
        Refusal::NullValue { name } => format!(in alloc; "NullValue {}", name.as_str()),
        Refusal::OutOfRange { name } => format!(in alloc; "OutOfRange {}", name.as_str()),
        Refusal::TooLong { name } => format!(in alloc; "TooLong {}", name.as_str()),
        Refusal::Duplicate { key } => {
            let key = printed_row(alloc, key.as_slice())?;
            format!(in alloc; "Duplicate {key}")
        }
        _ => String::from_str(alloc, "another refusal"),
    }
}

pub(crate) fn printed_reply(alloc: Global, reply: &Reply) -> Result<String, AllocError> {
    match reply {
        Reply::Rows(rows) => printed_rows(alloc, rows),
        Reply::Inserted(count) => format!(in alloc; "inserted {count}"),
        Reply::Updated(count) => format!(in alloc; "updated {count}"),
        Reply::Deleted(count) => format!(in alloc; "deleted {count}"),
        Reply::Created => String::from_str(alloc, "created"),
        Reply::Dropped => String::from_str(alloc, "dropped"),
        Reply::Refused(refusal) => printed_refusal(alloc, refusal),
    }
}

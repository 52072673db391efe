use std::alloc::{AllocError, Global};
use wat_plan::is_empty;
use wat_value::{Bound, Interval, Key, Value};

fn printed_value(alloc: Global, value: &Value) -> Result<String, AllocError> {
    match value {
        Value::Null => String::from_str(alloc, "NULL"),
        Value::Int(n) => format!(in alloc; "{n}"),
        Value::Text(text) => format!(in alloc; "'{}'", text.as_str()),
    }
}

/// The values in parentheses, with commas between.
pub(crate) fn printed_key(alloc: Global, key: &Key) -> Result<String, AllocError> {
    let mut printed = String::from_str(alloc, "(")?;
    for (i, value) in key.as_slice().iter().enumerate() {
        if i > 0 {
            printed.push_str(", ")?;
        }
        printed.push_str(printed_value(alloc, value)?.as_str())?;
    }
    printed.push_str(")")?;
    Ok(printed)
}

/// A lower bound: the keys begin at the start, from a key or after one.
pub(crate) fn printed_lower(alloc: Global, bound: &Bound) -> Result<String, AllocError> {
    match bound {
        Bound::Free => String::from_str(alloc, "from the start"),
        Bound::Including(key) => format!(in alloc; "from {}", printed_key(alloc, key)?),
        Bound::Excluding(key) => format!(in alloc; "after {}", printed_key(alloc, key)?),
    }
}

fn printed_upper(alloc: Global, bound: &Bound) -> Result<String, AllocError> {
    match bound {
        Bound::Free => String::from_str(alloc, "to the end"),
        Bound::Including(key) => format!(in alloc; "to {}", printed_key(alloc, key)?),
        Bound::Excluding(key) => format!(in alloc; "before {}", printed_key(alloc, key)?),
    }
}

/// Both bounds, and whether the interval is empty.
pub(crate) fn printed_interval(alloc: Global, interval: &Interval) -> Result<String, AllocError> {
    let lower = printed_lower(alloc, &interval.lower)?;
    let upper = printed_upper(alloc, &interval.upper)?;
    let empty = if is_empty(interval) { ", empty" } else { "" };
    format!(in alloc; "{lower} {upper}{empty}")
}

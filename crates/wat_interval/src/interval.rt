ghost use Rattle.std.specs.Prelude.{◌≡◌, false, IfOk};
ghost use Rattle.wat_interval.specs.Ends.{bound_at};
ghost use Rattle.wat_interval.specs.Intervals.{bound_with, interval_of};
ghost use Rattle.wat_interval.specs.Tests.{taken};

use crate::edge::{End, tightest};
use crate::test::{Tests, fixes};
use std::alloc::Global;
use wat_list::{Copied, NoMemory};
use wat_value::{Bound, Interval, Key};

fn including(key: Key) -> Bound
    ensures { result ≡ bound_with key false }
{
    if key.is_empty() {
        Bound::Free
    } else {
        Bound::Including(key)
    }
}

// The leading columns that are fixed, and one more that is bounded.
fn taken(columns: &[Tests]) -> &[Tests]
    ensures { result.now ≡ taken columns.now }
{
    for (i, tests) in columns.iter().enumerate() {
        if tests.is_empty() {
            return &columns[..i];
        }
        if !fixes(tests) {
            return &columns[..i + 1];
        }
    }
    columns
}

// It ends with its first exclusive value, or before the first column without one.
fn bound(alloc: Global, columns: &[Tests], end: End) -> Result<Bound, NoMemory>
    ensures { IfOk result (λ b. b ≡ bound_at end columns.now) }
{
    let mut key = Key::new(alloc);
    for tests in columns {
        let Some(edge) = tightest(tests.as_slice(), end) else {
            return Ok(including(key));
        };
        let value = edge.value.copy(alloc)?;
        key.push(value)?;
        if !edge.included {
            return Ok(Bound::Excluding(key));
        }
    }
    Ok(including(key))
}

/// The interval of the keys of an index that satisfy tests on its columns: those on the leading columns
/// that are fixed, and on one further column. Its lower bound has, column by column, the greatest of
/// the lower bounds, and its upper bound the least of the upper ones; at equal value an exclusive
/// one is the tighter one.
pub fn interval_of(alloc: Global, columns: &[Tests]) -> Result<Interval, NoMemory>
    ensures { IfOk result (λ i. i ≡ interval_of columns.now) }
{
    let columns = taken(columns);
    let lower = bound(alloc, columns, End::Lower)?;
    let upper = bound(alloc, columns, End::Upper)?;
    Ok(Interval { lower, upper })
}

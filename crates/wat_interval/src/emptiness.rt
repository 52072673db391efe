ghost use Rattle.std.specs.Prelude.{◌≡◌, ◌≤◌, take, length};
ghost use Rattle.wat_interval.specs.Intervals.{bound_values, excludes_within, is_empty, is_excluding};

use std::cmp::Ordering;
use wat_value::{Bound, Interval, Value, compare_rows};

fn values(bound: &Bound) -> &[Value]
    ensures { result.now ≡ bound_values bound.now }
{
    match bound {
        Bound::Free => &[],
        Bound::Including(key) | Bound::Excluding(key) => key.as_slice(),
    }
}

fn is_excluding(bound: &Bound) -> bool
    ensures { result ≡ is_excluding bound.now }
{
    matches!(bound, Bound::Excluding(_))
}

fn excludes_within(len: usize, bound: &Bound) -> bool
    ensures { result ≡ excludes_within len bound.now }
{
    values(bound).len() <= len && is_excluding(bound)
}

/// Whether the interval is empty, which its bounds alone say: on the columns that both name the lower one is greater than
/// the upper one, or they are equal there and one that names no further column excludes. It holds no
/// key then; but an interval that happens to hold none need not be empty.
pub fn is_empty(interval: &Interval) -> bool
    ensures { result ≡ is_empty interval.now }
{
    let lower = values(&interval.lower);
    let upper = values(&interval.upper);
    let named = lower.len().min(upper.len());
    match compare_rows(&lower[..named], &upper[..named]) {
        Ordering::Less => false,
        Ordering::Equal => {
            excludes_within(named, &interval.lower) || excludes_within(named, &interval.upper)
        }
        Ordering::Greater => true,
    }
}

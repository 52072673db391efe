ghost use Rattle.std.specs.Prelude.{◌≡◌, take};
ghost use Rattle.wat_value.specs.Bounds.{holds, is_above, is_below, prefix_cmp};

use crate::key::Key;
use crate::value::Value;
use std::alloc::Global;
use std::cmp::Ordering;
use wat_list::{Copied, NoMemory};

/// An end of an interval, by the first values of a key.
#[derive(Debug, Drop)]
pub enum Bound {
    Free,
    Including(Key),
    Excluding(Key),
}

/// Keys from a lower bound up to an upper one.
#[derive(Debug, Drop)]
pub struct Interval {
    pub lower: Bound,
    pub upper: Bound,
}

fn prefix(key: &[Value], len: usize) -> &[Value]
    ensures { result.now ≡ take len key.now }
{
    if len < key.len() { &key[..len] } else { key }
}

fn compare_prefix(key: &Key, bound: &Key) -> Ordering
    ensures { result ≡ prefix_cmp key.now bound.now }
{
    prefix(key.as_slice(), bound.len()).cmp(bound.as_slice())
}

impl Bound {
    /// Whether the bound, as a lower one, admits the key: a bound is compared with as many of the
    /// key's first values as it has itself.
    pub fn admits(&self, key: &Key) -> bool
        ensures { result ≡ is_above self.now key.now }
    {
        match self {
            Bound::Free => true,
            Bound::Including(bound) => compare_prefix(key, bound).is_ge(),
            Bound::Excluding(bound) => compare_prefix(key, bound).is_gt(),
        }
    }

    fn is_above(&self, key: &Key) -> bool
        ensures { result ≡ is_below self.now key.now }
    {
        match self {
            Bound::Free => true,
            Bound::Including(bound) => compare_prefix(key, bound).is_le(),
            Bound::Excluding(bound) => compare_prefix(key, bound).is_lt(),
        }
    }
}

impl Interval {
    /// Whether the key is between the bounds.
    pub fn holds(&self, key: &Key) -> bool
        ensures { result ≡ holds self.now key.now }
    {
        self.lower.admits(key) && self.upper.is_above(key)
    }
}

impl Copied for Bound {
    fn copy(&self, alloc: Global) -> Result<Self, NoMemory> {
        match self {
            Bound::Free => Ok(Bound::Free),
            Bound::Including(key) => {
                let key = key.copy(alloc)?;
                Ok(Bound::Including(key))
            }
            Bound::Excluding(key) => {
                let key = key.copy(alloc)?;
                Ok(Bound::Excluding(key))
            }
        }
    }
}

impl Copied for Interval {
    fn copy(&self, alloc: Global) -> Result<Self, NoMemory> {
        let lower = self.lower.copy(alloc)?;
        let upper = self.upper.copy(alloc)?;
        Ok(Interval { lower, upper })
    }
}

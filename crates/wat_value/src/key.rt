ghost use Rattle.std.specs.Prelude.{◌≡◌, ◌↔◌, [], ◌∷◌, ◌++◌, length, refl, IsTrue, OnOk, OnErr};
ghost use Rattle.std.specs.Cmp.{partial_order_from_total, partial_equiv_from_equiv, eq_by_cmp_equiv};
ghost use Rattle.std.specs.Ordering.{as_partial_cmp};
ghost use Rattle.wat_value.specs.Order.{key_cmp, key_eq};
ghost use Rattle.wat_value.specs.OrderLaws.{key_cmp_total};
ghost use Rattle.wat_value.specs.Hashing.{key_hash};
ghost use Rattle.wat_value.specs.HashingLaws.{key_hash_alike};

use crate::value::Value;
use std::alloc::Global;
use std::cmp::Ordering;
use std::hash::{Hash, Hasher};
use std::marker::Model;
use wat_list::{Copied, Items, NoMemory};

/// The values of an index's columns, or of the first few of them. Contracts see the list.
#[derive(Debug, Drop)]
pub struct Key {
    values: Items<Value>,
}

impl Model for Key {
    ghost use Rattle.std.specs.Prelude.{List};
    ghost use Rattle.wat_value.specs.declared.value.Value.{Value as AnyValue};

    ghost Value = { List AnyValue };

    ghost view = { λ k. k.values };
}

pub type Keys = Items<Key>;

impl Key {
    /// A key of no values.
    pub fn new(alloc: Global) -> Self
        ensures { result ≡ [] }
    {
        Key {
            values: Items::new(alloc),
        }
    }

    /// The key of these values.
    pub fn of(values: Items<Value>) -> Self
        ensures { result ≡ values }
    {
        Key { values }
    }

    pub fn as_slice(&self) -> &[Value]
        ensures { result.now ≡ self.now }
    {
        self.values.as_slice()
    }

    pub fn len(&self) -> usize
        ensures { result ≡ length self.now }
    {
        self.values.len()
    }

    pub fn is_empty(&self) -> bool
        ensures { IsTrue result ↔ (self.now ≡ []) }
    {
        self.values.is_empty()
    }

    /// Adds a value at the end.
    pub fn push(&mut self, value: Value) -> Result<(), NoMemory>
        ensures ok { OnOk result (self.new ≡ self.old ++ value ∷ []) }
        ensures err { OnErr result (self.new ≡ self.old) }
    {
        self.values.push(value)
    }
}

impl Copied for Key {
    fn copy(&self, alloc: Global) -> Result<Self, NoMemory> {
        let values = self.values.copy(alloc)?;
        Ok(Key { values })
    }
}

impl Ord for Key {
    ghost cmp = { key_cmp };

    ghost total = { key_cmp_total };

    ghost matches_partial_cmp = { λ a b. refl };

    ghost matches_eq = { λ a b. refl };

    fn cmp(&self, other: &Key) -> Ordering {
        self.as_slice().cmp(other.as_slice())
    }
}

impl PartialOrd for Key {
    ghost partial_cmp = { as_partial_cmp key_cmp };

    ghost laws = { partial_order_from_total key_cmp_total };

    fn partial_cmp(&self, other: &Key) -> Option<Ordering> {
        Some(self.cmp(other))
    }
}

impl PartialEq for Key {
    ghost eq = { key_eq };

    ghost laws = { partial_equiv_from_equiv (eq_by_cmp_equiv key_cmp_total) };

    fn eq(&self, other: &Key) -> bool {
        self.cmp(other).is_eq()
    }
}

impl Eq for Key {
    ghost laws = { eq_by_cmp_equiv key_cmp_total };
}

impl Hash for Key {
    ghost hash_input = { key_hash };

    ghost respects_eq = { key_hash_alike };

    fn hash<H: Hasher>(&self, state: &mut H) {
        self.as_slice().hash(state);
    }
}

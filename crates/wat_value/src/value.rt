ghost use Rattle.std.specs.Prelude.{◌≡◌, refl};
ghost use Rattle.std.specs.Cmp.{partial_order_from_total, partial_equiv_from_equiv, eq_by_cmp_equiv};
ghost use Rattle.std.specs.Ordering.{as_partial_cmp};
ghost use Rattle.wat_value.specs.Order.{key_cmp, value_cmp, value_eq};
ghost use Rattle.wat_value.specs.OrderLaws.{value_cmp_total};
ghost use Rattle.wat_value.specs.Hashing.{value_hash};
ghost use Rattle.wat_value.specs.HashingLaws.{value_hash_alike};

use crate::text::Text;
use std::alloc::Global;
use std::cmp::Ordering;
use std::hash::{Hash, Hasher};
use wat_list::{Copied, Items, NoMemory};

/// A value of a column, or of an expression.
#[derive(Debug, Drop)]
pub enum Value {
    Null,
    Int(i64),
    Text(Text),
}

/// The values of a row, one per column.
pub type Row = Items<Value>;

pub type Rows = Items<Row>;

/// A row, or nothing, for each source of a query, in the order as written.
pub type Combination = Items<Option<Row>>;

pub type Combinations = Items<Combination>;

impl Copied for Value {
    fn copy(&self, alloc: Global) -> Result<Self, NoMemory> {
        match self {
            Value::Null => Ok(Value::Null),
            Value::Int(n) => Ok(Value::Int(*n)),
            Value::Text(text) => {
                let text = text.copy(alloc)?;
                Ok(Value::Text(text))
            }
        }
    }
}

impl Value {
    /// Null first, then integers, then texts by their bytes.
    pub fn compare(&self, other: &Value) -> Ordering
        ensures { result ≡ value_cmp self.now other.now }
    {
        self.cmp(other)
    }
}

impl Ord for Value {
    ghost cmp = { value_cmp };

    ghost total = { value_cmp_total };

    ghost matches_partial_cmp = { λ v w. refl };

    ghost matches_eq = { λ v w. refl };

    fn cmp(&self, other: &Value) -> Ordering {
        match (self, other) {
            (Value::Null, Value::Null) => Ordering::Equal,
            (Value::Int(m), Value::Int(n)) => m.cmp(n),
            (Value::Text(s), Value::Text(t)) => s.as_str().cmp(t.as_str()),
            (Value::Null, _) | (Value::Int(_), Value::Text(_)) => Ordering::Less,
            (_, Value::Null) | (Value::Text(_), Value::Int(_)) => Ordering::Greater,
        }
    }
}

impl PartialOrd for Value {
    ghost partial_cmp = { as_partial_cmp value_cmp };

    ghost laws = { partial_order_from_total value_cmp_total };

    fn partial_cmp(&self, other: &Value) -> Option<Ordering> {
        Some(self.cmp(other))
    }
}

impl PartialEq for Value {
    ghost eq = { value_eq };

    ghost laws = { partial_equiv_from_equiv (eq_by_cmp_equiv value_cmp_total) };

    fn eq(&self, other: &Value) -> bool {
        self.cmp(other).is_eq()
    }
}

impl Eq for Value {
    ghost laws = { eq_by_cmp_equiv value_cmp_total };
}

impl Hash for Value {
    ghost hash_input = { value_hash };

    ghost respects_eq = { value_hash_alike };

    fn hash<H: Hasher>(&self, state: &mut H) {
        match self {
            Value::Null => state.write_u8(0),
            Value::Int(n) => {
                state.write_u8(1);
                state.write_i64(*n);
            }
            Value::Text(text) => {
                state.write_u8(2);
                text.hash(state);
            }
        }
    }
}

/// The order of rows: value by value, and a row before each longer one that begins with it.
pub fn compare_rows(row: &[Value], other: &[Value]) -> Ordering
    ensures { result ≡ key_cmp row.now other.now }
{
    row.cmp(other)
}

ghost use Rattle.std.specs.Prelude.{refl};
ghost use Rattle.std.specs.Cmp.{partial_order_from_total, partial_equiv_from_equiv, eq_by_cmp_equiv};
ghost use Rattle.std.specs.Ordering.{as_partial_cmp, eq_by_cmp};
ghost use Rattle.wat_group.specs.Order.{order_key_cmp};
ghost use Rattle.wat_group.specs.OrderLaws.{order_key_cmp_total};

use std::cmp::Ordering;
use wat_list::Items;
use wat_value::{Row, Value};

/// What an ORDER BY item reads of a line, with its direction.
#[derive(Drop)]
pub enum OrderKey {
    Ascending(Value),
    Descending(Value),
}

pub type OrderKeys = Items<OrderKey>;

/// A row of a result, with what orders it among the others.
#[derive(Drop)]
pub struct Line {
    pub row: Row,
    pub order: OrderKeys,
}

impl Ord for OrderKey {
    ghost cmp = { order_key_cmp };

    ghost total = { order_key_cmp_total };

    ghost matches_partial_cmp = { λ v w. refl };

    ghost matches_eq = { λ v w. refl };

    fn cmp(&self, other: &OrderKey) -> Ordering {
        match (self, other) {
            (OrderKey::Ascending(v), OrderKey::Ascending(w)) => v.cmp(w),
            (OrderKey::Ascending(_), OrderKey::Descending(_)) => Ordering::Less,
            (OrderKey::Descending(_), OrderKey::Ascending(_)) => Ordering::Greater,
            (OrderKey::Descending(v), OrderKey::Descending(w)) => w.cmp(v),
        }
    }
}

impl PartialOrd for OrderKey {
    ghost partial_cmp = { as_partial_cmp order_key_cmp };

    ghost laws = { partial_order_from_total order_key_cmp_total };

    fn partial_cmp(&self, other: &OrderKey) -> Option<Ordering> {
        Some(self.cmp(other))
    }
}

impl PartialEq for OrderKey {
    ghost eq = { eq_by_cmp order_key_cmp };

    ghost laws = { partial_equiv_from_equiv (eq_by_cmp_equiv order_key_cmp_total) };

    fn eq(&self, other: &OrderKey) -> bool {
        self.cmp(other).is_eq()
    }
}

impl Eq for OrderKey {
    ghost laws = { eq_by_cmp_equiv order_key_cmp_total };
}

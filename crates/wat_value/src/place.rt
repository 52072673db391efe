ghost use Rattle.std.specs.Prelude.{refl};
ghost use Rattle.std.specs.Cmp.{partial_order_from_total, partial_equiv_from_equiv, eq_by_cmp_equiv};
ghost use Rattle.std.specs.Ordering.{as_partial_cmp};
ghost use Rattle.wat_value.specs.Hashing.{place_hash};
ghost use Rattle.wat_value.specs.HashingLaws.{place_hash_alike};
ghost use Rattle.wat_value.specs.Order.{place_cmp, place_eq};
ghost use Rattle.wat_value.specs.OrderLaws.{place_cmp_total};

use crate::key::Key;
use std::alloc::Global;
use std::cmp::Ordering;
use std::hash::{Hash, Hasher};
use wat_list::{Copied, NoMemory};

/// A position of an index: at a key, or behind all keys.
#[derive(Debug, Drop)]
pub enum Place {
    At(Key),
    End,
}

impl Copied for Place {
    fn copy(&self, alloc: Global) -> Result<Self, NoMemory> {
        match self {
            Place::At(key) => {
                let key = key.copy(alloc)?;
                Ok(Place::At(key))
            }
            Place::End => Ok(Place::End),
        }
    }
}

impl Ord for Place {
    ghost cmp = { place_cmp };

    ghost total = { place_cmp_total };

    ghost matches_partial_cmp = { λ p q. refl };

    ghost matches_eq = { λ p q. refl };

    fn cmp(&self, other: &Place) -> Ordering {
        match (self, other) {
            (Place::At(key), Place::At(other)) => key.cmp(other),
            (Place::At(_), Place::End) => Ordering::Less,
            (Place::End, Place::At(_)) => Ordering::Greater,
            (Place::End, Place::End) => Ordering::Equal,
        }
    }
}

impl PartialOrd for Place {
    ghost partial_cmp = { as_partial_cmp place_cmp };

    ghost laws = { partial_order_from_total place_cmp_total };

    fn partial_cmp(&self, other: &Place) -> Option<Ordering> {
        Some(self.cmp(other))
    }
}

impl PartialEq for Place {
    ghost eq = { place_eq };

    ghost laws = { partial_equiv_from_equiv (eq_by_cmp_equiv place_cmp_total) };

    fn eq(&self, other: &Place) -> bool {
        self.cmp(other).is_eq()
    }
}

impl Eq for Place {
    ghost laws = { eq_by_cmp_equiv place_cmp_total };
}

impl Hash for Place {
    ghost hash_input = { place_hash };

    ghost respects_eq = { place_hash_alike };

    fn hash<H: Hasher>(&self, state: &mut H) {
        match self {
            Place::At(key) => {
                state.write_u8(0);
                key.hash(state);
            }
            Place::End => state.write_u8(1),
        }
    }
}

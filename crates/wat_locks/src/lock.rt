ghost use Rattle.std.specs.Prelude.{◌≡◌, ◌↔◌, IsTrue, refl};
ghost use Rattle.std.specs.Cmp.{partial_order_from_total, partial_equiv_from_equiv, eq_by_cmp_equiv};
ghost use Rattle.std.specs.Ordering.{as_partial_cmp};
ghost use Rattle.wat_locks.specs.Conflict.{excludes, Conflicts};
ghost use Rattle.wat_locks.specs.Hashing.{resource_hash};
ghost use Rattle.wat_locks.specs.HashingLaws.{resource_hash_alike};
ghost use Rattle.wat_locks.specs.Order.{kind_rank, resource_cmp, resource_eq, lock_cmp, lock_eq};
ghost use Rattle.wat_locks.specs.OrderLaws.{resource_cmp_total, lock_cmp_total};

use std::alloc::Global;
use std::cmp::Ordering;
use std::hash::{Hash, Hasher};
use wat_list::{Copied, NoMemory};
use wat_value::{Key, Place};

#[derive(Clone, Copy, Debug, PartialEq, Eq)]
pub enum LockKind {
    Read,
    Write,
    Phantom,
    AntiPhantom,
}

/// What is locked: a row by its primary key, whether or not it stands, or the gap just before a
/// place of an index. Index 0 of a table is its primary key.
#[derive(Debug, Drop)]
pub enum Resource {
    Row { table: u32, key: Key },
    Gap { table: u32, index: u8, place: Place },
}

/// Rows are locked by Read and Write, gaps by Phantom and AntiPhantom.
#[derive(Debug, Drop)]
pub struct Lock {
    pub kind: LockKind,
    pub resource: Resource,
}

impl LockKind {
    /// The place in the order of wants.
    pub(crate) fn rank(self) -> u8
        ensures { result ≡ kind_rank self }
    {
        match self {
            LockKind::Read => 0,
            LockKind::Write => 1,
            LockKind::Phantom => 2,
            LockKind::AntiPhantom => 3,
        }
    }

    /// Whether a lock of this kind excludes one of the other on the same resource.
    pub fn excludes(self, other: LockKind) -> bool
        ensures { result ≡ excludes self other }
    {
        match self {
            LockKind::Read => matches!(other, LockKind::Write),
            LockKind::Write => matches!(other, LockKind::Read | LockKind::Write),
            LockKind::Phantom => matches!(other, LockKind::AntiPhantom),
            LockKind::AntiPhantom => matches!(other, LockKind::Phantom),
        }
    }
}

impl Resource {
    pub fn is_same(&self, other: &Resource) -> bool
        ensures { IsTrue result ↔ (self.now ≡ other.now) }
    {
        self == other
    }
}

impl Lock {
    pub fn is_same(&self, other: &Lock) -> bool
        ensures { IsTrue result ↔ (self.now ≡ other.now) }
    {
        self == other
    }

    /// Whether no two connections may hold the two locks at once.
    pub fn conflicts(&self, other: &Lock) -> bool
        ensures { IsTrue result ↔ Conflicts self.now other.now }
    {
        self.kind.excludes(other.kind) && self.resource.is_same(&other.resource)
    }
}

impl Copied for Resource {
    fn copy(&self, alloc: Global) -> Result<Self, NoMemory> {
        match self {
            Resource::Row { table, key } => {
                let key = key.copy(alloc)?;
                Ok(Resource::Row { table: *table, key })
            }
            Resource::Gap {
                table,
                index,
                place,
            } => {
                let place = place.copy(alloc)?;
                Ok(Resource::Gap {
                    table: *table,
                    index: *index,
                    place,
                })
            }
        }
    }
}

impl Copied for Lock {
    fn copy(&self, alloc: Global) -> Result<Self, NoMemory> {
        let resource = self.resource.copy(alloc)?;
        Ok(Lock {
            kind: self.kind,
            resource,
        })
    }
}

impl Ord for Resource {
    ghost cmp = { resource_cmp };

    ghost total = { resource_cmp_total };

    ghost matches_partial_cmp = { λ r s. refl };

    ghost matches_eq = { λ r s. refl };

    fn cmp(&self, other: &Resource) -> Ordering {
        match self {
            Resource::Row { table: t, key: x } => match other {
                Resource::Row { table: u, key: y } => t.cmp(u).then(x.cmp(y)),
                Resource::Gap { .. } => Ordering::Less,
            },
            Resource::Gap {
                table: t,
                index: i,
                place: p,
            } => match other {
                Resource::Row { .. } => Ordering::Greater,
                Resource::Gap {
                    table: u,
                    index: j,
                    place: q,
                } => t.cmp(u).then(i.cmp(j)).then(p.cmp(q)),
            },
        }
    }
}

impl PartialOrd for Resource {
    ghost partial_cmp = { as_partial_cmp resource_cmp };

    ghost laws = { partial_order_from_total resource_cmp_total };

    fn partial_cmp(&self, other: &Resource) -> Option<Ordering> {
        Some(self.cmp(other))
    }
}

impl PartialEq for Resource {
    ghost eq = { resource_eq };

    ghost laws = { partial_equiv_from_equiv (eq_by_cmp_equiv resource_cmp_total) };

    fn eq(&self, other: &Resource) -> bool {
        self.cmp(other).is_eq()
    }
}

impl Eq for Resource {
    ghost laws = { eq_by_cmp_equiv resource_cmp_total };
}

impl Hash for Resource {
    ghost hash_input = { resource_hash };

    ghost respects_eq = { resource_hash_alike };

    fn hash<H: Hasher>(&self, state: &mut H) {
        match self {
            Resource::Row { table, key } => {
                state.write_u8(0);
                state.write_u32(*table);
                key.hash(state);
            }
            Resource::Gap {
                table,
                index,
                place,
            } => {
                state.write_u8(1);
                state.write_u32(*table);
                state.write_u8(*index);
                place.hash(state);
            }
        }
    }
}

impl Ord for Lock {
    ghost cmp = { lock_cmp };

    ghost total = { lock_cmp_total };

    ghost matches_partial_cmp = { λ a b. refl };

    ghost matches_eq = { λ a b. refl };

    fn cmp(&self, other: &Lock) -> Ordering {
        self.resource
            .cmp(&other.resource)
            .then(self.kind.rank().cmp(&other.kind.rank()))
    }
}

impl PartialOrd for Lock {
    ghost partial_cmp = { as_partial_cmp lock_cmp };

    ghost laws = { partial_order_from_total lock_cmp_total };

    fn partial_cmp(&self, other: &Lock) -> Option<Ordering> {
        Some(self.cmp(other))
    }
}

impl PartialEq for Lock {
    ghost eq = { lock_eq };

    ghost laws = { partial_equiv_from_equiv (eq_by_cmp_equiv lock_cmp_total) };

    fn eq(&self, other: &Lock) -> bool {
        self.cmp(other).is_eq()
    }
}

impl Eq for Lock {
    ghost laws = { eq_by_cmp_equiv lock_cmp_total };
}

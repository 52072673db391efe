ghost use Rattle.std.specs.Prelude.{◌≡◌, ℕ, IfOk, Err};
ghost use Rattle.wat_faults.specs.Faults.{HasCause};
ghost use Rattle.wat_visits.specs.declared.source.SourceError.TheVariants.{Failed, Memory};
ghost use Rattle.wat_visits.specs.Sourced.{Sourced, IsSourced, IsFirstIn};

use std::alloc::AllocError;
use wat_value::{Bound, Key, Place, Row};

/// Why a source gave up. After that it is not used again.
#[derive(Clone, Copy, Debug, PartialEq, Eq)]
pub enum SourceError {
    /// Its count of failures rose.
    Failed,
    Memory,
}

impl From<AllocError> for SourceError {
    ghost from_gives = { λ _ e. e ≡ Memory };

    fn from(_error: AllocError) -> SourceError {
        SourceError::Memory
    }
}

/// What has the rows of tables, and the positions of their indexes: the keys of the rows, and vacant ones.
///
/// It stands for them where it tells what it has. No call changes what it stands for, whatever it answers. What
/// else goes on, as on a disk below it, it tells by a relation between what it was and what it is; and it counts its
/// failures.
pub trait RowSource {
    ghost stands_for: { Self → Sourced → Type 0 };

    ghost goes: { Self → Self → Type 0 };

    ghost failures: { Self → ℕ };

    /// The row of the table with that primary key.
    fn row(&mut self, table: u32, key: &Key) -> Result<Option<Row>, SourceError>
        ensures row { (s : Sourced) → stands_for self.old s → IfOk result (λ row. row ≡ s.rows (record { table = table; key = key.now })) }
        ensures stays { (s : Sourced) → stands_for self.old s → stands_for self.new s }
        ensures beside { goes self.old self.new }
        ensures cause { HasCause (failures self.old) (failures self.new) (result ≡ Err SourceError.Failed) };

    /// The first position of the index that the lower bound admits, or the end.
    fn successor(&mut self, table: u32, index: u8, from: &Bound) -> Result<Place, SourceError>
        ensures first { (s : Sourced) → stands_for self.old s → IfOk result (λ place. IsFirstIn s (record { table = table; index = index }) from.now place) }
        ensures stays { (s : Sourced) → stands_for self.old s → stands_for self.new s }
        ensures beside { goes self.old self.new }
        ensures cause { HasCause (failures self.old) (failures self.new) (result ≡ Err SourceError.Failed) };

    /// The rows fit, and the vacant keys are as wide as their indexes.
    ghost sound: { (x : Self) (s : Sourced) → stands_for x s → IsSourced s };

    ghost still: { (x : Self) → goes x x };

    ghost goes_on: { (x y z : Self) → goes x y → goes y z → goes x z };
}

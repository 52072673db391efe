ghost use Rattle.std.specs.Prelude.{◌≡◌, ◌≢◌, ◌↔◌, ◌<◌, ◌≤◌, ◌++◌, ◌∷◌, [], ℕ, List, true, length, MatchOption, IfSome, IsTrue, IfOk, OnOk, Some};
ghost use Rattle.std.specs.List.{list_any};
ghost use Rattle.wat_schema.specs.Definitions.{allows};
ghost use Rattle.wat_schema.specs.Tables.{Tables, after_alter, apply_change, catalog_of, row_at};
ghost use Rattle.wat_log_record.specs.Encoding.{IsWritableChange};
ghost use Rattle.wat_replay.specs.State.{State, Lists, with_list};
ghost use Rattle.wat_recover.specs.Goes.{Popped, Went};
ghost use Rattle.wat_recover.specs.Asked.{is_of_row};
ghost use Rattle.wat_recover.specs.declared.target.TargetError.TheVariants.{Memory};

use std::alloc::AllocError;
use wat_schema::Schema;
use wat_value::{Change, Key, Row, SchemaChange};

/// Why a target gave up. After that it is not used again.
#[derive(Clone, Copy, Debug, PartialEq, Eq)]
pub enum TargetError {
    /// Its count of failures rose.
    Failed,
    Memory,
}

impl From<AllocError> for TargetError {
    ghost from_gives = { λ _ e. e ≡ Memory };

    fn from(_error: AllocError) -> TargetError {
        TargetError::Memory
    }
}

/// What holds the tables, and of each connection the changes that stand.
///
/// It stands for states: between a change and its place in a list for none that is lawful, so that lawfulness is no
/// matter of a target, but a premise of `apply_to` and `undo_on`. What else goes on, as on a disk below it, it tells
/// by a relation between what it was and what it is; and it counts its failures.
pub trait Target {
    ghost stands_for: { Self → State → Type 0 };

    ghost goes: { Self → Self → Type 0 };

    ghost failures: { Self → ℕ };

    fn schema(&self) -> &Schema
        ensures { (s : State) → stands_for self.now s → result.now ≡ catalog_of s.tables };

    /// The row of the table with that primary key.
    fn row(&mut self, table: u32, key: &Key) -> Result<Option<Row>, TargetError>
        ensures row { (s : State) → stands_for self.old s → IfOk result (λ row. row ≡ row_at s.tables table key.now) }
        ensures stays { (s : State) → stands_for self.old s → OnOk result (stands_for self.new s) }
        ensures went { Went goes failures self.old self.new (result ≡ Err TargetError.Failed) };

    /// Makes a change that applies.
    fn make(&mut self, change: &Change) -> Result<(), TargetError>
        ensures made { (s : State) (t : Tables) → stands_for self.old s → apply_change change.now s.tables ≡ Some t → OnOk result (stands_for self.new (record { tables = t; lists = s.lists })) }
        ensures went { Went goes failures self.old self.new (result ≡ Err TargetError.Failed) };

    /// Makes a change of the schema that is allowed.
    fn alter(&mut self, change: &SchemaChange) -> Result<(), TargetError>
        ensures altered { (s : State) → stands_for self.old s → allows change.now (catalog_of s.tables) ≡ true → OnOk result (stands_for self.new (record { tables = after_alter change.now s.tables; lists = s.lists })) }
        ensures went { Went goes failures self.old self.new (result ≡ Err TargetError.Failed) };

    /// Adds a change at the end of the connection's list.
    fn push(&mut self, conn: u16, change: Change) -> Result<(), TargetError>
        requires { IsWritableChange change }
        ensures pushed { (s : State) → stands_for self.old s → OnOk result (stands_for self.new (record { tables = s.tables; lists = with_list conn (s.lists conn ++ change ∷ []) s.lists })) }
        ensures went { Went goes failures self.old self.new (result ≡ Err TargetError.Failed) };

    /// Takes the last change off the connection's list; None where the list is empty.
    fn pop(&mut self, conn: u16) -> Option<Change>
        ensures popped { (s : State) → stands_for self.old s
            → MatchOption result ((s.lists conn ≡ []) × stands_for self.new s) (λ change. (lists : Lists) × Popped conn change s.lists lists × stands_for self.new (record { tables = s.tables; lists = lists })) }
        ensures went { Went goes failures self.old self.new ⊥ };

    /// How many changes the connection's list has.
    fn count(&self, conn: u16) -> u32
        ensures { (s : State) → stands_for self.now s → result ≡ length (s.lists conn) };

    /// The least connection from that number on whose list is not empty.
    fn next_open(&self, from: u32) -> Option<u16>
        ensures from { IfSome result (λ conn. from ≤ conn) }
        ensures open { (s : State) → stands_for self.now s → MatchOption result ((other : ℕ) → from ≤ other → s.lists other ≡ [])
            (λ conn. (s.lists conn ≢ []) × ((other : ℕ) → from ≤ other → other < conn → s.lists other ≡ [])) };

    /// Whether another connection's list has a change of the row of that table with that key.
    fn changed_by_other(&self, conn: u16, table: u32, key: &Key) -> bool
        ensures { (s : State) → stands_for self.now s
            → IsTrue result ↔ ((other : ℕ) × (other ≢ conn) × (list_any (is_of_row (catalog_of s.tables) table key.now) (s.lists other) ≡ true)) };

    ghost still: { (x : Self) → goes x x };

    ghost goes_on: { (x y z : Self) → goes x y → goes y z → goes x z };
}

ghost use Rattle.std.specs.Prelude.{◌≡◌, ◌≢◌, ◌↔◌, ◌<◌, ◌≤◌, ◌^◌, ◌==◌, ◌&&◌, ◌++◌, ◌∷◌, [], ℕ, true, length, count_by, MatchOption, IfSome, IsTrue, OnOk, not};
ghost use Rattle.std.specs.List.{list_any};
ghost use Rattle.wat_value.specs.Changes.{changed_table};
ghost use Rattle.wat_value.specs.Fits.{value_in, values_in};
ghost use Rattle.wat_value.specs.Order.{key_eq};
ghost use Rattle.wat_schema.specs.Changes.{changed_key};
ghost use Rattle.wat_replay.specs.State.{with_list};
ghost use Rattle.wat_recover.specs.Goes.{Popped};
ghost use Rattle.wat_recover.specs.Asked.{is_of_row, row_in};
ghost use Rattle.wat_recover.specs.Listed.{lists_of, IsBefore, IsNotBefore, IsLastOf, IsLeastFrom};

use crate::changing::table_of;
use sqlite_items::at;
use std::alloc::{AllocError, Global};
use std::marker::Model;
use wat_list::{Items, NoMemory};
use wat_schema::Schema;
use wat_value::{Change, Key, TableDef, Value};

/// A change that stands, and the connection that made it.
#[derive(Debug, Drop)]
pub struct Standing {
    pub conn: u16,
    pub change: Change,
}

/// The changes of all connections that stand, in the order in which they were made: fewer than
/// 4,294,967,296. Contracts see them as such.
#[derive(Debug, Drop)]
pub struct ChangeLists {
    standing: Items<Standing>,
}

impl Model for ChangeLists {
    ghost use Rattle.std.specs.Prelude.{List, ◌<◌, ◌^◌, length};
    ghost use Rattle.wat_recover.specs.declared.change_lists.Standing.{Standing as AnyStanding};

    ghost Value = { List AnyStanding };

    ghost view = { λ l. l.standing };

    ghost invariant = { λ l. length l.standing < 2 ^ 32 };
}

/// Whether the number is below the least one so far, where there is one.
fn is_before(conn: u16, least: Option<u16>) -> bool
    ensures before { IsTrue result → IsBefore conn least }
    ensures not_before { not result ≡ true → IsNotBefore conn least }
{
    match least {
        Some(least) => conn < least,
        None => true,
    }
}

/// The place of the connection's last change.
fn last_of(standing: &[Standing], conn: u16) -> Option<usize>
    ensures { MatchOption result (lists_of standing.now conn ≡ []) (λ i. IsLastOf standing.now conn i) }
{
    let mut i = standing.len();
    while i > 0 {
        i -= 1;
        match at(standing, i) {
            Some(s) => {
                if s.conn == conn {
                    return Some(i);
                }
            }
            None => return None,
        }
    }
    None
}

/// How many changes are the connection's.
fn count_of(standing: &[Standing], conn: u16) -> usize
    ensures { result ≡ count_by (λ s. conn == s.conn) standing.now }
{
    standing.iter().filter(|s| conn == s.conn).count()
}

/// The least connection from that number on that has changes.
fn least_from(standing: &[Standing], from: u32) -> Option<u16>
    ensures { IsLeastFrom from (lists_of standing.now) result }
{
    let mut least = None;
    for s in standing {
        if u32::from(s.conn) >= from && is_before(s.conn, least) {
            least = Some(s.conn);
        }
    }
    least
}

/// The row that the change is of.
fn row_of(change: &Change) -> &[Value]
    ensures { result.now ≡ row_in change.now }
{
    match change {
        Change::Insert { row, .. } => row.as_slice(),
        Change::Update { before, .. } => before.as_slice(),
        Change::Delete { before, .. } => before.as_slice(),
    }
}

/// Whether the value stands in the column; past the row's last one Null does.
fn is_in_column(row: &[Value], column: u8, value: &Value) -> bool
    ensures { IsTrue result ↔ (value.now ≡ value_in row.now column) }
{
    match at(row, column as usize) {
        Some(found) => value == found,
        None => value == &Value::Null,
    }
}

/// Whether these are the row's values in the columns.
fn are_in_columns(row: &[Value], columns: &[u8], values: &[Value]) -> bool
    ensures { IsTrue result ↔ (values.now ≡ values_in row.now columns.now) }
{
    if columns.len() != values.len() {
        return false;
    }
    for i in 0..values.len() {
        if !is_in_column(row, columns[i], &values[i]) {
            return false;
        }
    }
    true
}

/// Whether the change is of the row of the table of that number and definition with that key.
fn is_of_row(def: &TableDef, table: u32, key: &Key, change: &Change) -> bool
    ensures { result ≡ ((table == changed_table change.now) && key_eq key.now (changed_key def.now change.now)) }
{
    table == table_of(change) && are_in_columns(row_of(change), def.key.as_slice(), key.as_slice())
}

/// Whether one of the changes is another connection's, and of that row.
fn is_changed_by_other(
    standing: &[Standing],
    def: &TableDef,
    conn: u16,
    table: u32,
    key: &Key,
) -> bool
    ensures { result ≡ list_any (λ s. not (conn == s.conn) && ((table == changed_table s.change) && key_eq key.now (changed_key def.now s.change))) standing.now }
{
    standing.iter().any(|s| conn != s.conn && is_of_row(def, table, key, &s.change))
}

impl ChangeLists {
    /// No changes.
    pub fn new(alloc: Global) -> Self
        ensures { result ≡ [] }
    {
        ChangeLists {
            standing: Items::new(alloc),
        }
    }

    /// Adds a change at the end of the connection's list. Where 4,294,967,295 changes stand, memory is wanted.
    pub fn push(&mut self, conn: u16, change: Change) -> Result<(), NoMemory>
        ensures { OnOk result (lists_of self.new ≡ with_list conn (lists_of self.old conn ++ change ∷ []) (lists_of self.old)) }
    {
        if self.standing.len() >= 4_294_967_295 {
            return Err(AllocError);
        }
        self.standing.push(Standing { conn, change })
    }

    /// Takes the last change off the connection's list; None where the list is empty.
    pub fn pop(&mut self, conn: u16) -> Option<Change>
        ensures { MatchOption result ((lists_of self.old conn ≡ []) × (self.new ≡ self.old)) (λ change. Popped conn change (lists_of self.old) (lists_of self.new)) }
    {
        let i = last_of(self.standing.as_slice(), conn)?;
        let Standing { conn: _, change } = self.standing.remove(i);
        Some(change)
    }

    /// How many changes the connection's list has.
    pub fn count(&self, conn: u16) -> u32
        ensures { result ≡ length (lists_of self.now conn) }
    {
        count_of(self.standing.as_slice(), conn) as u32
    }

    /// The least connection from that number on whose list is not empty.
    pub fn next_open(&self, from: u32) -> Option<u16>
        ensures from { IfSome result (λ conn. from ≤ conn) }
        ensures open { MatchOption result ((other : ℕ) → from ≤ other → lists_of self.now other ≡ [])
            (λ conn. (lists_of self.now conn ≢ []) × ((other : ℕ) → from ≤ other → other < conn → lists_of self.now other ≡ [])) }
    {
        least_from(self.standing.as_slice(), from)
    }

    /// Whether a change of another connection is of the row of that table with that key.
    pub fn changed_by_other(&self, schema: &Schema, conn: u16, table: u32, key: &Key) -> bool
        ensures { IsTrue result ↔ ((other : ℕ) × (other ≢ conn) × (list_any (is_of_row schema.now table key.now) (lists_of self.now other) ≡ true)) }
    {
        let Some(def) = schema.def(table) else {
            return false;
        };
        is_changed_by_other(self.standing.as_slice(), def, conn, table, key)
    }
}

// The changes that can be rolled back.
ghost use Rattle.std.specs.Prelude.{◌≡◌, ◌≢◌, ◌↔◌, ◌<◌, ◌≤◌, ◌++◌, ◌∷◌, [], ℕ, true, length, IsTrue, OnOk, IfSome, MatchOption};
ghost use Rattle.std.specs.List.{list_any};
ghost use Rattle.wat_book.specs.Book.{Book};
ghost use Rattle.wat_schema.specs.Tables.{catalog_of};
ghost use Rattle.wat_log_record.specs.Encoding.{IsWritableChange};
ghost use Rattle.wat_replay.specs.State.{State, Lists, with_list};
ghost use Rattle.wat_recover.specs.Asked.{is_of_row};
ghost use Rattle.wat_recover.specs.Goes.{Popped};

use crate::Objects;
use crate::of_row::is_changed_by_other;
use wat_list::NoMemory;
use wat_value::{Change, Key};

impl Objects {
    ghost use Rattle.wat_objects.specs.Objects.{pages_of, undo_of, HoldsOn};

    /// Adds a change at the end of the connection's list.
    pub fn push(&mut self, conn: u16, change: Change) -> Result<(), NoMemory>
        requires { IsWritableChange change }
        ensures pushed { (book : Book) (s : State) → HoldsOn book self.old s → OnOk result (HoldsOn book self.new (record { tables = s.tables; lists = with_list conn (s.lists conn ++ change ∷ []) s.lists })) }
        ensures pages { pages_of self.new ≡ pages_of self.old }
    {
        self.undo.push(conn, change)
    }

    /// Takes the last change off the connection's list; `None` where the list is empty.
    pub fn pop(&mut self, conn: u16) -> Option<Change>
        ensures popped { (book : Book) (s : State) → HoldsOn book self.old s
            → MatchOption result ((s.lists conn ≡ []) × HoldsOn book self.new s) (λ change. (lists : Lists) × Popped conn change s.lists lists × HoldsOn book self.new (record { tables = s.tables; lists = lists })) }
        ensures pages { pages_of self.new ≡ pages_of self.old }
    {
        self.undo.pop(conn)
    }

    /// How many changes the connection's list has.
    pub fn count(&self, conn: u16) -> u32
        ensures { (book : Book) (s : State) → HoldsOn book self.now s → result ≡ length (s.lists conn) }
    {
        self.undo.count(conn)
    }

    /// The least connection from that number on whose list is not empty.
    pub fn next_open(&self, from: u32) -> Option<u16>
        ensures from { IfSome result (λ conn. from ≤ conn) }
        ensures open { (book : Book) (s : State) → HoldsOn book self.now s → MatchOption result ((other : ℕ) → from ≤ other → s.lists other ≡ [])
            (λ conn. (s.lists conn ≢ []) × ((other : ℕ) → from ≤ other → other < conn → s.lists other ≡ [])) }
    {
        self.undo.next_open(from)
    }

    /// How many connections have changes.
    pub fn open_count(&self) -> usize
        ensures { result ≡ length (undo_of self.now) }
    {
        self.undo.len()
    }

    /// Whether a change of another connection is of the row of that table with that key.
    pub fn changed_by_other(&self, conn: u16, table: u32, key: &Key) -> bool
        ensures { (book : Book) (s : State) → HoldsOn book self.now s
            → IsTrue result ↔ ((other : ℕ) × (other ≢ conn) × (list_any (is_of_row (catalog_of s.tables) table key.now) (s.lists other) ≡ true)) }
    {
        is_changed_by_other(&self.undo, &self.schema, conn, table, key)
    }
}

ghost use Rattle.std.specs.Prelude.{◌≡◌, ◌≤◌, ◌<◌, ◌==◌, [], ◌∷◌, ◌++◌, not, false, filter, string_bytes, OnOk};
ghost use Rattle.std.specs.List.{list_any};
ghost use Rattle.std.specs.Str.{bytes_eq};

use indexmap::IndexMap;
use std::alloc::Global;
use std::marker::Model;
use wat_list::NoMemory;

/// The names of all indexes, each with the number of its table.
///
/// Contracts see the pairs, and how many more are taken without asking for memory.
#[derive(Drop)]
pub struct Owners {
    tables: IndexMap<String, u32>,
}

impl Model for Owners {
    ghost use Rattle.std.specs.Prelude.{List, ℕ, map, string_bytes};
    ghost use Rattle.indexmap.specs.IndexMap.{spare};
    ghost use Rattle.wat_list.specs.Reservation.{Reservation};

    ghost Value = { Reservation (List ℕ × ℕ) };

    ghost view = { λ o. record { items = map (λ e. (string_bytes e.0, e.1)) o.tables.entries; spare = spare o.tables } };
}

impl Owners {
    pub fn new(alloc: Global) -> Self
        ensures { result.items ≡ [] }
    {
        Owners {
            tables: IndexMap::new(alloc),
        }
    }

    pub fn contains(&self, name: &str) -> bool
        ensures { result ≡ list_any (λ e. bytes_eq name.now e.0) self.now.items }
    {
        self.tables.contains_key(name)
    }

    /// Makes room for one more.
    pub fn reserve(&mut self) -> Result<(), NoMemory>
        ensures items { self.new.items ≡ self.old.items }
        ensures room { OnOk result (0 < self.new.spare) }
    {
        self.tables.reserve(1)
    }

    /// Adds a new name, in the room that is there.
    pub fn add(&mut self, name: String, table: u32)
        requires room { 0 < self.old.spare }
        requires fresh { list_any (λ e. bytes_eq (string_bytes name) e.0) self.old.items ≡ false }
        ensures { self.new.items ≡ self.old.items ++ (string_bytes name, table) ∷ [] }
    {
        match self.tables.insert(name, table) {
            Ok(_) => {}
            Err(_) => unreachable!(),
        }
    }

    /// Removes the names of the table's indexes.
    pub fn remove_of(&mut self, table: u32)
        ensures { self.new.items ≡ filter (λ e. not (table == e.1)) self.old.items }
    {
        self.tables.retain(
            |_name: &String, owner: &mut u32| -> bool
                ensures { (result ≡ not (table == owner.old)) × (owner.new ≡ owner.old) }
            { table != *owner },
        );
    }
}

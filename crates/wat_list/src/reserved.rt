ghost use Rattle.std.specs.Prelude.{◌≡◌, ◌+◌, ◌<◌, ◌≤◌, ◌↔◌, [], ◌∷◌, ◌++◌, Some, length, slice_get, IsTrue, IsOk, IfOk, OnOk, OnErr};

use crate::NoMemory;
use sqlite_items::Items;
use std::alloc::Global;
use std::marker::Model;

/// A list that takes its room ahead of time.
///
/// Contracts see its items, and its spare: how many more items it takes without asking for memory.
#[derive(Debug, Drop)]
pub struct Reserved<T> {
    items: Vec<T>,
}

impl<T> Model for Reserved<T> {
    ghost use Rattle.std.specs.Prelude.{◌-◌, vec_len, vec_capacity};
    ghost use Rattle.wat_list.specs.Reservation.{Reservation, coded_reservation};

    ghost Value = { Reservation T };

    ghost coded = { coded_reservation T.code };

    ghost view = { λ r. record { items = r.items.items; spare = vec_capacity r.items - vec_len r.items } };
}

impl<T> Reserved<T> {
    /// An empty list, with no room yet.
    pub fn new(alloc: Global) -> Self
        ensures items { result.items ≡ [] }
        ensures spare { result.spare ≡ 0 }
    {
        Reserved {
            items: Vec::new(alloc),
        }
    }

    /// The items in order.
    pub fn as_slice(&self) -> &[T]
        ensures { result.now ≡ self.now.items }
    {
        self.items.as_slice()
    }

    pub fn len(&self) -> usize
        ensures { result ≡ length self.now.items }
    {
        self.items.len()
    }

    pub fn is_empty(&self) -> bool
        ensures { IsTrue result ↔ (self.now.items ≡ []) }
    {
        self.items.is_empty()
    }

    /// The item at `i`, counted from 0.
    pub fn get(&self, i: usize) -> &T
        requires { i < length self.now.items }
        ensures { slice_get self.now.items i ≡ Some result.now }
    {
        &self.items[i]
    }

    /// The items alone; the room is given up.
    pub fn into_items(self) -> Items<T>
        ensures { result ≡ self.items }
    {
        let Reserved { items } = self;
        Items::from_vec(items)
    }
}

impl<T: Drop> Reserved<T> {
    /// An empty list with room for `n` items at least.
    pub fn with_room(alloc: Global, n: usize) -> Result<Self, NoMemory>
        ensures items { IfOk result (λ list. list.items ≡ []) }
        ensures room { IfOk result (λ list. n ≤ list.spare) }
    {
        let mut list = Reserved::new(alloc);
        list.reserve(n)?;
        Ok(list)
    }

    /// Makes room for `n` more items. Where there is room already it takes no memory.
    pub fn reserve(&mut self, n: usize) -> Result<(), NoMemory>
        ensures items { self.new.items ≡ self.old.items }
        ensures room { OnOk result (n ≤ self.new.spare) }
        ensures kept { self.old.spare ≤ self.new.spare }
        ensures had_room { n ≤ self.old.spare → IsOk result }
    {
        self.items.reserve(n)
    }

    /// Adds an item at the end, in the room that is there.
    pub fn push(&mut self, item: T)
        requires { 0 < self.old.spare }
        ensures items { self.new.items ≡ self.old.items ++ item ∷ [] }
        ensures spare { self.old.spare ≤ self.new.spare + 1 }
    {
        match self.items.push(item) {
            Ok(()) => {}
            Err(_) => unreachable!(),
        }
    }

    /// Adds an item at the end, with memory of its own where no room is left.
    pub fn try_push(&mut self, item: T) -> Result<(), NoMemory>
        ensures ok { OnOk result (self.new.items ≡ self.old.items ++ item ∷ []) }
        ensures err { OnErr result (self.new.items ≡ self.old.items) }
        ensures had_room { 0 < self.old.spare → IsOk result }
        ensures spare { self.old.spare ≤ self.new.spare + 1 }
    {
        self.reserve(1)?;
        self.push(item);
        Ok(())
    }
}

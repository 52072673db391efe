// On which page each row stands.
ghost use Rattle.std.specs.Prelude.{◌≡◌, ◌↔◌, ◌==◌, ◌&&◌, ℕ, Some, None, true, if◌then◌else◌, IfOk, OnOk, IsSome};
ghost use Rattle.std.specs.Ordering.{nat_cmp};
ghost use Rattle.std.specs.BTreeMap.{get, IsOrdered};
ghost use Rattle.std.specs.Map.{keys_of};
ghost use Rattle.wat_list.specs.Has.{Has};
ghost use Rattle.wat_list.specs.Rising.{rising};
ghost use Rattle.wat_value.specs.Order.{key_cmp, key_eq};
ghost use Rattle.wat_rows.specs.Rows.{Row};

use std::alloc::Global;
use std::collections::BTreeMap;
use wat_list::{Copied, Items, NoMemory};
use wat_value::{Key, Keys};

/// The page on which each row stands, by table and key. A look-up costs a logarithm.
#[derive(Drop)]
pub struct Places {
    tables: BTreeMap<u32, BTreeMap<Key, u32>>,
}

/// The keys, in their order.
fn copied_keys(alloc: Global, keys: &BTreeMap<Key, u32>) -> Result<Keys, NoMemory>
    ensures keys { IfOk result (λ copies. copies ≡ keys_of keys.now.entries) }
    ensures ordered { IsOrdered key_cmp keys.now }
{
    let mut copies = Items::new(alloc);
    for key in keys.keys() {
        copies.push(key.copy(alloc)?)?;
    }
    Ok(copies)
}

impl Places {
    ghost use Rattle.wat_directory.specs.Known.{place_in};

    pub fn new(alloc: Global) -> Self
        ensures { (table : ℕ) (key : Row) → place_in result table key ≡ None }
    {
        Places {
            tables: BTreeMap::new(alloc),
        }
    }

    pub fn get(&self, table: u32, key: &Key) -> Option<u32>
        ensures { result ≡ place_in self.now table key.now }
    {
        match self.tables.get(&table) {
            Some(keys) => match keys.get(key) {
                Some(page) => Some(*page),
                None => None,
            },
            None => None,
        }
    }

    /// The keys of a table's rows with their pages, which are taken out.
    fn take_keys(&mut self, alloc: Global, table: u32) -> BTreeMap<Key, u32>
        ensures taken { (key : Row) → get key_cmp result key ≡ place_in self.old table key }
        ensures left { (t : ℕ) → get nat_cmp self.new.tables t ≡ (if table == t then None else get nat_cmp self.old.tables t) }
    {
        match self.tables.remove(&table) {
            Some(keys) => keys,
            None => BTreeMap::new(alloc),
        }
    }

    /// The row stands on this page now.
    pub fn set(&mut self, alloc: Global, table: u32, key: Key, page: u32) -> Result<(), NoMemory>
        ensures { OnOk result ((t : ℕ) (k : Row) → place_in self.new t k ≡ (if (table == t) && key_eq key k then Some page else place_in self.old t k)) }
    {
        let mut keys = self.take_keys(alloc, table);
        keys.insert(key, page)?;
        self.tables.insert(table, keys)?;
        Ok(())
    }

    /// The row stands nowhere now.
    pub fn unset(&mut self, table: u32, key: &Key) -> Result<(), NoMemory>
        ensures { OnOk result ((t : ℕ) (k : Row) → place_in self.new t k ≡ (if (table == t) && key_eq key.now k then None else place_in self.old t k)) }
    {
        let Some(mut keys) = self.tables.remove(&table) else {
            return Ok(());
        };
        keys.remove(key);
        self.tables.insert(table, keys)?;
        Ok(())
    }

    /// The keys of a table's rows, in their order.
    pub fn keys(&self, alloc: Global, table: u32) -> Result<Keys, NoMemory>
        ensures order { IfOk result (λ keys. rising key_cmp keys ≡ true) }
        ensures all { IfOk result (λ keys. (key : Row) → Has key keys ↔ IsSome (place_in self.now table key)) }
    {
        match self.tables.get(&table) {
            Some(keys) => copied_keys(alloc, keys),
            None => Ok(Items::new(alloc)),
        }
    }
}

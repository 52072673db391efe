ghost use Rattle.std.specs.Prelude.{◌≡◌, ◌<◌, ◌≤◌, true, not, [], length, refl, slice_get, insert, remove, MatchResult, IfOk, OnOk, OnErr};
ghost use Rattle.std.specs.Option.{option_copied};
ghost use Rattle.std.specs.List.{find};
ghost use Rattle.std.proofs.Common.{sym, ◌∙◌};
ghost use Rattle.sqlite_keyed.specs.Lists.{sort_by};
ghost use Rattle.wat_list.specs.Rising.{rising};
ghost use Rattle.wat_value.specs.declared.value.Value.{Value};
ghost use Rattle.wat_value.specs.Bounds.{first_from, is_above, place_of};
ghost use Rattle.wat_value.specs.Order.{key_cmp};
ghost use Rattle.wat_index.specs.KeySets.{with_key, without_key};
ghost use Rattle.wat_index.specs.declared.scan_index.IndexError.TheVariants.{Memory};

use crate::scan_index::{IndexError, ScanIndex};
use std::alloc::Global;
use std::marker::Model;
use wat_list::{Copied, NoMemory};
use wat_value::{Bound, Key};

/// A set of keys in memory, as a vector in strict order.
#[derive(Debug, Drop)]
pub struct VecIndex {
    keys: Vec<Key>,
}

impl Model for VecIndex {
    ghost use Rattle.std.specs.Prelude.{◌≡◌, true, List};
    ghost use Rattle.wat_list.specs.Rising.{rising};
    ghost use Rattle.wat_value.specs.declared.value.Value.{Value as AnyValue};
    ghost use Rattle.wat_value.specs.Order.{key_cmp};

    ghost Value = { List (List AnyValue) };

    ghost view = { λ index. index.keys.items };

    ghost invariant = { λ index. rising key_cmp index.keys.items ≡ true };
}

// The number of keys that the bound does not admit, which all come first.
fn first_admitted(keys: &[Key], from: &Bound) -> usize
    requires { rising key_cmp keys.now ≡ true }
    ensures { slice_get keys.now result ≡ find (is_above from.now) keys.now }
{
    keys.partition_point(
        |key: &Key| -> bool
            ensures { result ≡ not (is_above from.entry.now key.now) }
        { !from.admits(key) },
    )
}

// Where the key is, or where it would go.
fn place_in(keys: &[Key], key: &Key) -> Result<usize, usize>
    requires { rising key_cmp keys.now ≡ true }
    ensures within { MatchResult result (λ i. i < length keys.now) (λ i. i ≤ length keys.now) }
    ensures with { MatchResult result (λ i. keys.now ≡ with_key key.now keys.now) (λ i. insert keys.now i key.now ≡ with_key key.now keys.now) }
    ensures without { MatchResult result (λ i. remove keys.now i ≡ without_key key.now keys.now) (λ i. keys.now ≡ without_key key.now keys.now) }
{
    keys.binary_search(key)
}

impl VecIndex {
    pub fn new(alloc: Global) -> Self
        ensures { result ≡ [] }
    {
        VecIndex {
            keys: Vec::new(alloc),
        }
    }

    /// The set of these keys, of which none stands twice.
    pub fn of(mut keys: Vec<Key>) -> Result<Self, NoMemory>
        requires { rising key_cmp (sort_by key_cmp keys.items) ≡ true }
        ensures { IfOk result (λ index. index ≡ sort_by key_cmp keys.items) }
    {
        keys.sort()?;
        Ok(VecIndex { keys })
    }

    /// The keys in strict order.
    pub fn as_slice(&self) -> &[Key]
        ensures keys { result.now ≡ self.now }
        ensures order { rising key_cmp self.now ≡ true }
    {
        self.keys.as_slice()
    }

    /// The first key that the lower bound admits, or `None` where it admits none.
    pub fn first_key_from(&self, from: &Bound) -> Option<&Key>
        ensures { place_of (option_copied result) ≡ first_from from.now self.now }
    {
        self.keys.get(first_admitted(self.keys.as_slice(), from))
    }

    /// Adds the key. Where it is there already nothing changes, and no memory is taken.
    pub fn add_key(&mut self, key: &Key) -> Result<(), NoMemory>
        ensures ok { OnOk result (self.new ≡ with_key key.now self.old) }
        ensures err { OnErr result (self.new ≡ self.old) }
    {
        match place_in(self.keys.as_slice(), key) {
            Ok(_) => Ok(()),
            Err(place) => {
                let key = key.copy(*self.keys.allocator())?;
                self.keys.insert(place, key)?;
                Ok(())
            }
        }
    }

    /// Takes the key out. Where it isn't there nothing changes.
    pub fn remove_key(&mut self, key: &Key)
        ensures { self.new ≡ without_key key.now self.old }
    {
        if let Ok(place) = place_in(self.keys.as_slice(), key) {
            self.keys.remove(place);
        }
    }
}

impl<P> ScanIndex<P> for VecIndex {
    ghost use Rattle.wat_index.specs.Held.{Holds};

    ghost tells = { Unit {0} };

    ghost holds = { λ index pages. Holds index };

    ghost goes = { λ old new. new ≡ old };

    ghost explains = { λ error old new. error ≡ Memory };

    ghost in_order = { λ index pages keys told held. held.in_order };

    ghost one_set = { λ index pages a b told held other. sym held.same ∙ other.same };

    ghost goes_nowhere = { λ pages. refl };

    ghost goes_on = { λ first second third a b. b ∙ a };

    fn successor(&self, _pages: &mut P, from: &Bound) -> Result<Option<Key>, IndexError> {
        let Some(key) = self.first_key_from(from) else {
            return Ok(None);
        };
        match key.copy(*self.keys.allocator()) {
            Ok(key) => Ok(Some(key)),
            Err(_) => Err(IndexError::Memory),
        }
    }

    fn insert(&mut self, _pages: &mut P, key: &Key) -> Result<(), IndexError> {
        match self.add_key(key) {
            Ok(()) => Ok(()),
            Err(_) => Err(IndexError::Memory),
        }
    }

    fn remove(&mut self, _pages: &mut P, key: &Key) -> Result<(), IndexError> {
        self.remove_key(key);
        Ok(())
    }
}

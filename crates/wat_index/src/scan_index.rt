ghost use Rattle.std.specs.Prelude.{◌≡◌, ◌≤◌, true, length, List, IfOk, IfErr, OnOk};
ghost use Rattle.wat_list.specs.Rising.{rising};
ghost use Rattle.wat_value.specs.declared.value.Value.{Value};
ghost use Rattle.wat_value.specs.Bounds.{first_from, place_of};
ghost use Rattle.wat_value.specs.Encoding.{row_bytes};
ghost use Rattle.wat_value.specs.Order.{key_cmp};
ghost use Rattle.wat_index.specs.KeySets.{with_key, without_key};
ghost use Rattle.wat_index.specs.declared.scan_index.IndexError.{IndexError as Cause};

use wat_value::{Bound, Key};

/// Why a call of an index gave up.
#[derive(Clone, Copy, Debug, PartialEq, Eq)]
pub enum IndexError {
    /// The pages refused a call.
    Failed,
    /// A page more was needed, and the pages have reached their limit.
    PageLimit,
    /// Memory ran out.
    Memory,
}

/// A set of keys with their order, which is kept beside pages of the kind `P` or in them.
///
/// Each call is handed the pages that the earlier calls were handed. After an `Err` neither the index
/// nor the pages are used again.
pub trait ScanIndex<P> {
    /// The pages tell what they hold. Where they don't, no clause says which keys there are.
    ghost tells: { Type 0 };

    /// In these pages the index stands for these keys.
    ghost holds: { Self → P → List (List Value) → Type 0 };

    /// What a call may make of pages, whatever it answers.
    ghost goes: { P → P → Type 0 };

    /// What there is to an error: what it says of the pages before the call and after it.
    ghost explains: { Cause → P → P → Type 0 };

    /// The first key that the lower bound admits, or `None` where it admits none.
    fn successor(&self, pages: &mut P, from: &Bound) -> Result<Option<Key>, IndexError>
        ensures first { tells → (keys : List (List Value)) → holds self.now pages.old keys → IfOk result (λ key. place_of key ≡ first_from from.now keys) }
        ensures keys { tells → (keys : List (List Value)) → holds self.now pages.old keys → OnOk result (holds self.now pages.new keys) }
        ensures pages { goes pages.old pages.new }
        ensures cause { IfErr result (λ error. explains error pages.old pages.new) };

    /// Adds the key. Where it is there already nothing changes.
    fn insert(&mut self, pages: &mut P, key: &Key) -> Result<(), IndexError>
        requires { length (row_bytes key.now) ≤ 902 }
        ensures keys { tells → (keys : List (List Value)) → holds self.old pages.old keys → OnOk result (holds self.new pages.new (with_key key.now keys)) }
        ensures pages { goes pages.old pages.new }
        ensures cause { IfErr result (λ error. explains error pages.old pages.new) };

    /// Takes the key out. Where it isn't there nothing changes.
    fn remove(&mut self, pages: &mut P, key: &Key) -> Result<(), IndexError>
        ensures keys { tells → (keys : List (List Value)) → holds self.old pages.old keys → OnOk result (holds self.new pages.new (without_key key.now keys)) }
        ensures pages { goes pages.old pages.new }
        ensures cause { IfErr result (λ error. explains error pages.old pages.new) };

    /// The keys stand in strict order.
    ghost in_order: { (index : Self) (pages : P) (keys : List (List Value)) → tells → holds index pages keys → rising key_cmp keys ≡ true };

    /// The index stands for one set of keys.
    ghost one_set: { (index : Self) (pages : P) (a b : List (List Value)) → tells → holds index pages a → holds index pages b → a ≡ b };

    /// What a call may make of pages holds of none and of several in a row.
    ghost goes_nowhere: { (pages : P) → goes pages pages };

    ghost goes_on: { (first second third : P) → goes first second → goes second third → goes first third };
}

ghost use Rattle.std.specs.Prelude.{◌≡◌, ◌≢◌, ◌⊎◌, ◌↔◌, true, false, length, List};
ghost use Rattle.std.specs.Ordering.{is_lt, is_gt};
ghost use Rattle.wat_list.specs.Has.{Has, HasSame};
ghost use Rattle.wat_list.specs.Rising.{rising};
ghost use Rattle.wat_value.specs.declared.bound.Bound.{Bound};
ghost use Rattle.wat_value.specs.declared.bound.Bound.TheVariants.{Excluding};
ghost use Rattle.wat_value.specs.Bounds.{is_above, is_below};
ghost use Rattle.wat_value.specs.Order.{key_cmp};
ghost use Rattle.wat_index.specs.KeySets.{Key, with_key, without_key};

/// Keys with one more are those and it, and keys without one are the others; both stand in strict
/// order again. With a key that is there, and without one that isn't, they are the same. Keys in
/// strict order are the same where they have the same members.
pub fn key_set_law()
    ensures with { (key other : Key) (keys : List Key) → Has other (with_key key keys) ↔ ((other ≡ key) ⊎ Has other keys) }
    ensures without { (key other : Key) (keys : List Key) → Has other (without_key key keys) ↔ (Has other keys × (other ≢ key)) }
    ensures with_order { (key : Key) (keys : List Key) → rising key_cmp keys ≡ true → rising key_cmp (with_key key keys) ≡ true }
    ensures without_order { (key : Key) (keys : List Key) → rising key_cmp keys ≡ true → rising key_cmp (without_key key keys) ≡ true }
    ensures there { (key : Key) (keys : List Key) → rising key_cmp keys ≡ true → Has key keys → with_key key keys ≡ keys }
    ensures missing { (key : Key) (keys : List Key) → rising key_cmp keys ≡ true → (Has key keys → ⊥) → without_key key keys ≡ keys }
    ensures same { (a b : List Key) → rising key_cmp a ≡ true → rising key_cmp b ≡ true → HasSame a b → a ≡ b }
{}

/// A key before one that a lower bound does not admit is not admitted, and a key before one that is
/// below an upper bound is below it. No key up to a bound's own is behind it; of keys as long as
/// the bound's exactly the greater ones are.
pub fn cut_law()
    ensures above { (bound : Bound) (key later : Key) → is_lt (key_cmp key later) ≡ true → is_above bound later ≡ false → is_above bound key ≡ false }
    ensures below { (bound : Bound) (key later : Key) → is_lt (key_cmp key later) ≡ true → is_below bound later ≡ true → is_below bound key ≡ true }
    ensures not_behind { (key other : Key) → is_gt (key_cmp other key) ≡ false → is_above (Excluding key) other ≡ false }
    ensures behind { (key other : Key) → length other ≡ length key → is_above (Excluding key) other ≡ is_gt (key_cmp other key) }
{}

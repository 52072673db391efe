//! Laws of the orders, of the keys of indexes, of the first key that a bound admits, and of the bytes that rows take.
ghost use Rattle.std.specs.Prelude.{◌≡◌, ℕ, ◌+◌, ◌≤◌, ◌<◌, ◌^◌, ◌↔◌, true, List, length, map, IsPermutation};
ghost use Rattle.std.specs.declared.cmp.Ordering.TheVariants.{Equal};
ghost use Rattle.std.specs.Cmp.{IsTotalOrder};
ghost use Rattle.wat_list.specs.Has.{Has, IsOnce};
ghost use Rattle.wat_list.specs.Rising.{rising};
ghost use Rattle.wat_value.specs.Bounds.{IsFirstFrom, first_from};
ghost use Rattle.wat_value.specs.Encoding.{IsShort, row_bytes};
ghost use Rattle.wat_value.specs.Fits.{fits, key_of, values_in};
ghost use Rattle.wat_value.specs.Indexes.{index_key, index_keys};
ghost use Rattle.wat_value.specs.Widths.{have_columns, width_at, widths};
ghost use Rattle.wat_value.specs.Order.{value_cmp, key_cmp, place_cmp};
ghost use Rattle.wat_value.specs.declared.value.Value.{Value};
ghost use Rattle.wat_value.specs.declared.place.Place.{Place};
ghost use Rattle.wat_value.specs.declared.bound.Bound.{Bound};
ghost use Rattle.wat_value.specs.declared.definition.IndexDef.{IndexDef};
ghost use Rattle.wat_value.specs.declared.definition.TableDef.{TableDef};

/// The orders of values, of keys and of places are total, and only the same are level in them.
pub fn order_laws()
    ensures total { IsTotalOrder value_cmp }
    ensures level { (v w : Value) → (value_cmp v w ≡ Equal) ↔ (v ≡ w) }
    ensures keys_total { IsTotalOrder key_cmp }
    ensures keys_level { (a b : List Value) → (key_cmp a b ≡ Equal) ↔ (a ≡ b) }
    ensures places_total { IsTotalOrder place_cmp }
    ensures places_level { (p q : Place) → (place_cmp p q ≡ Equal) ↔ (p ≡ q) }
{}

/// Among keys in order, the first that a lower bound admits is the least one that it admits.
pub fn first_law()
    ensures { (bound : Bound) (keys : List (List Value)) → rising key_cmp keys ≡ true → IsFirstFrom (λ key. Has key keys) bound (first_from bound keys) }
{}

/// The keys of rows in an index are one per row, and stand in strict order where no two rows have
/// the same primary key.
pub fn index_laws()
    ensures same { (def : TableDef) (indexes : List IndexDef) (index : ℕ) (rows : List (List Value))
        → IsPermutation (index_keys def indexes index rows) (map (index_key def indexes index) rows) }
    ensures rising { (def : TableDef) (indexes : List IndexDef) (index : ℕ) (rows : List (List Value))
        → IsOnce (map (key_of def) rows) → rising key_cmp (index_keys def indexes index rows) ≡ true }
{}

/// A row that fits its table takes at most the widths of its columns in bytes, and 2 for the count
/// of its values; so do the values of some of its columns, as its key or its key in an index.
/// Values of fewer than 65,536 bytes can be encoded.
pub fn width_laws()
    ensures row { (def : TableDef) (row : List Value) → fits def row ≡ true → length (row_bytes row) ≤ 2 + widths def.columns }
    ensures values { (def : TableDef) (row : List Value) (numbers : List ℕ) → fits def row ≡ true → have_columns def.columns numbers ≡ true
        → length (row_bytes (values_in row numbers)) ≤ 2 + width_at def.columns numbers }
    ensures short { (row : List Value) → length (row_bytes row) < 2 ^ 16 → IsShort row }
{}

ghost use Rattle.std.specs.Prelude.{◌≡◌, ◌≤◌, true, false, length, List};
ghost use Rattle.wat_value.specs.declared.value.Value.{Value};
ghost use Rattle.wat_value.specs.declared.bound.Interval.{Interval};
ghost use Rattle.wat_value.specs.Bounds.{holds};
ghost use Rattle.wat_interval.specs.declared.test.Test.{Test};
ghost use Rattle.wat_interval.specs.Intervals.{interval_of, is_empty};
ghost use Rattle.wat_interval.specs.Tests.{all_columns_bound, passes_tests, taken};

/// The interval of tests on the columns of an index holds exactly the keys that satisfy all tests that
/// are taken: those of the leading columns that are fixed, and of one further column. An empty
/// interval holds no key.
pub fn interval_law()
    ensures exact { (columns : List (List Test)) (key : List Value) → all_columns_bound columns ≡ true → length columns ≤ length key → holds (interval_of columns) key ≡ passes_tests (taken columns) key }
    ensures empty { (i : Interval) (key : List Value) → is_empty i ≡ true → holds i key ≡ false }
{}

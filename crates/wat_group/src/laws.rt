ghost use Rattle.std.specs.Prelude.{List, IsPermutation, IsSortedByKey};
ghost use Rattle.std.specs.List.Sorted.{IsStableByKey};
ghost use Rattle.wat_value.specs.declared.definition.TableDef.{TableDef};
ghost use Rattle.wat_value.specs.Order.{key_cmp};
ghost use Rattle.wat_expr.specs.Evaluation.{Combination};
ghost use Rattle.wat_group.specs.declared.line.Line.{Line};
ghost use Rattle.wat_group.specs.Order.{order_keys_cmp};
ghost use Rattle.wat_group.specs.Query.{keys_at, in_key_order, ordered};

/// The orders of the definition only move what they order, leave it sorted, and keep what they do
/// not tell apart as it stood. The function does nothing: it states the laws.
pub fn order_laws()
    ensures keys_permuted { (defs : List TableDef) (met : List Combination) → IsPermutation met (in_key_order defs met) }
    ensures keys_sorted { (defs : List TableDef) (met : List Combination) → IsSortedByKey (keys_at defs) key_cmp (in_key_order defs met) }
    ensures keys_stable { (defs : List TableDef) (met : List Combination) → IsStableByKey (keys_at defs) key_cmp met (in_key_order defs met) }
    ensures lines_permuted { (lines : List Line) → IsPermutation lines (ordered lines) }
    ensures lines_sorted { (lines : List Line) → IsSortedByKey (λ line. line.order) order_keys_cmp (ordered lines) }
    ensures lines_stable { (lines : List Line) → IsStableByKey (λ line. line.order) order_keys_cmp lines (ordered lines) }
{}

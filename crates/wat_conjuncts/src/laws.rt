ghost use Rattle.std.specs.Prelude.{◌≡◌, ℕ, true, false, map, List};
ghost use Rattle.wat_value.specs.Bounds.{holds};
ghost use Rattle.wat_ast.specs.declared.expression.Expr.{Expr};
ghost use Rattle.wat_expr.specs.declared.outcome.Outcome.TheVariants.{False};
ghost use Rattle.wat_expr.specs.Evaluation.{Combination, over, outcome_of};
ghost use Rattle.wat_interval.specs.Intervals.{interval_of};
ghost use Rattle.wat_conjuncts.specs.Conjuncts.{conjuncts_in};
ghost use Rattle.wat_conjuncts.specs.Usable.{tests_on};
ghost use Rattle.wat_conjuncts.specs.Outside.{AgreeIn, none_null, values_at};

/// Where the values of a row in some columns lie outside the interval of the usable conjuncts on
/// them, and none of them is Null, the condition is False over each combination with that row and the rows of
/// the earlier sources: neither True nor Error.
pub fn outside_law()
    ensures { (condition : Expr) (earlier : List ℕ) (source : ℕ) (columns : List ℕ) (outer c : Combination) → AgreeIn earlier outer c → none_null (values_at c source columns) ≡ true
        → holds (interval_of (map (tests_on (conjuncts_in condition) earlier source outer) columns)) (values_at c source columns) ≡ false → outcome_of condition (over c) ≡ False }
{}

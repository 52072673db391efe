ghost use Rattle.std.specs.Prelude.{◌≡◌, ℕ, true, false, List, take, slice_get, Some};
ghost use Rattle.std.specs.Cmp.{IsTotalOrder};
ghost use Rattle.std.specs.Ordering.{is_gt};
ghost use Rattle.wat_list.specs.Has.{Has};
ghost use Rattle.wat_value.specs.Bounds.{holds};
ghost use Rattle.wat_ast.specs.declared.query.Query.{Query};
ghost use Rattle.wat_schema.specs.Catalog.{Catalog};
ghost use Rattle.wat_schema.specs.Stored.{IsCatalog};
ghost use Rattle.wat_expr.specs.declared.outcome.Outcome.TheVariants.{False};
ghost use Rattle.wat_expr.specs.Evaluation.{Combination, over};
ghost use Rattle.wat_group.specs.Query.{condition_at};
ghost use Rattle.wat_conjuncts.specs.Outside.{AgreeIn, none_null, values_at};
ghost use Rattle.wat_plan.specs.declared.choice.PlanStep.{PlanStep};
ghost use Rattle.wat_plan.specs.declared.choice.Way.{Way};
ghost use Rattle.wat_plan.specs.Choice.{ranked, way_cmp};
ghost use Rattle.wat_plan.specs.Plans.{ScanPlan, columns_of_step, interval_at, plan_of, sources_of};
ghost use Rattle.wat_plan.specs.Scanned.{ScansEach};

/// Where the key of a row lies outside the interval of its scan, WHERE is False over every combination
/// with that row and the rows of the sources that are scanned before it: the combination does not
/// pass, and it is no error. So a scan that visits the interval alone misses nothing.
pub fn outside_law()
    ensures { (p : ScanPlan) (depth : ℕ) (step : PlanStep) (outer c : Combination) → slice_get p.steps depth ≡ Some step → AgreeIn (sources_of (take depth p.steps)) outer c → none_null (values_at c step.source (columns_of_step p step)) ≡ true
        → holds (interval_at p depth outer) (values_at c step.source (columns_of_step p step)) ≡ false → condition_at (over c) p.query.filter ≡ False }
{}

/// The plan of a query over a catalog scans each of its sources once, over an index of its table whose columns are
/// never NULL.
pub fn plan_law()
    ensures { (c : Catalog) (q : Query) → IsCatalog c → ScansEach c (plan_of c q) }
{}

/// The way that is chosen is one of the ways, and none of them goes before it: none has more `=` columns, or as many
/// and a bound where it has none, or the same of both and an earlier source, or else a lesser index number.
pub fn choice_law()
    ensures total { IsTotalOrder way_cmp }
    ensures first { (ways : List Way) (best : Way) → slice_get (ranked ways) 0 ≡ Some best → Has best ways × ((way : Way) → Has way ways → is_gt (way_cmp best way) ≡ false) }
{}

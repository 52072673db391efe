ghost use Rattle.std.specs.Prelude.{◌≡◌, ◌+◌, ◌*◌, ◌≤◌, ℕ};
ghost use Rattle.wat_budget.specs.Budget.{Kinds, IsBudgeted, total, budget};

/// Where no page is free, the pages are within the budget of the greatest size so far. The budget is kept from the opening on:
/// as the greatest size grows; by a row page more, where the row pages that stand are as full as those in which no row finds
/// room; by a row page less; and by both chains written anew, each on as few pages as its payload needs.
pub fn budget_laws()
    ensures bound { (p m : ℕ) (k : Kinds) → IsBudgeted p m k → k.free ≡ 0 → total k ≤ budget p m }
    ensures opens { (p m : ℕ) (k : Kinds) → total k ≤ p → IsBudgeted p m k }
    ensures grows { (p m more : ℕ) (k : Kinds) → m ≤ more → IsBudgeted p m k → IsBudgeted p more k }
    ensures takes_row { (p m : ℕ) (k : Kinds) (free : ℕ) → 501 * k.rows ≤ m → IsBudgeted p m k → IsBudgeted p m (record k { rows = k.rows + 1; free = free }) }
    ensures frees_row { (p m : ℕ) (k : Kinds) (rows free : ℕ) → rows ≤ k.rows → IsBudgeted p m k → IsBudgeted p m (record k { rows = rows; free = free }) }
    ensures saves { (p m : ℕ) (k : Kinds) (catalog rollback free schema changes : ℕ) → 4080 * catalog ≤ schema + 4079 → schema ≤ m → 4080 * rollback ≤ changes + 4079 → changes ≤ 2 * m + 2 → IsBudgeted p m k → IsBudgeted p m (record k { catalog = catalog; rollback = rollback; free = free }) }
{}

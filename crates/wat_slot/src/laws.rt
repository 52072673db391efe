ghost use Rattle.std.specs.Prelude.{◌≡◌, ℕ, List};
ghost use Rattle.wat_slot.specs.Cells.{IsCellPage};

/// A page is of one list of cells alone.
pub fn cells_law()
    ensures { (page : List ℕ) (a b : List (List ℕ)) → IsCellPage page a → IsCellPage page b → a ≡ b }
{}

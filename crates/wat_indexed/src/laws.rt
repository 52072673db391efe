ghost use Rattle.std.specs.Prelude.{◌≡◌, true, Some};
ghost use Rattle.wat_value.specs.declared.change.Change.{Change};
ghost use Rattle.wat_value.specs.Changes.{row_before};
ghost use Rattle.wat_schema.specs.Tables.{Tables, apply_change, catalog_of};
ghost use Rattle.wat_meaning.specs.Standing.{change_fits};
ghost use Rattle.wat_scans.specs.Look.{look};
ghost use Rattle.wat_scans.specs.Running.{row_changed};
ghost use Rattle.wat_visits.specs.Sourced.{Sourced};
ghost use Rattle.wat_indexed.specs.Indexed.{AreIndexed, Indexed, IsMade, StandsFor, after_change, sourced_after};

/// Where a change fits, and the row is there that it changes, tables with their indexes stand for the rows after it when it is made.
pub fn change_law()
    ensures { (x : Indexed) (s : Sourced) (change : Change) → StandsFor x s → change_fits s.schema change ≡ true → s.rows (row_changed s.schema change) ≡ row_before change → StandsFor (after_change change x) (sourced_after change s) }
{}

/// A change is made of tables with their indexes where it fits and its row stands as it says, and wherever it applies to the
/// tables.
pub fn made_law()
    ensures fits { (x : Indexed) (change : Change) → AreIndexed x → change_fits (catalog_of x.tables) change ≡ true → look x.tables (row_changed (catalog_of x.tables) change) ≡ row_before change → IsMade x change }
    ensures applies { (x : Indexed) (change : Change) (after : Tables) → AreIndexed x → apply_change change x.tables ≡ Some after → IsMade x change }
{}

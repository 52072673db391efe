ghost use Rattle.std.specs.Prelude.{◌≡◌, [], map, List, Option};
ghost use Rattle.wat_value.specs.declared.bound.Bound.{Bound};
ghost use Rattle.wat_value.specs.Bounds.{first_from};
ghost use Rattle.wat_value.specs.Changes.{RowName};
ghost use Rattle.wat_schema.specs.Catalog.{Catalog};
ghost use Rattle.wat_schema.specs.Tables.{Row};
ghost use Rattle.wat_isolation.specs.Rows.{set_row};
ghost use Rattle.wat_isolation.specs.Sql.{sql, IndexName};
ghost use Rattle.wat_scans.specs.Look.{RowsFit};
ghost use Rattle.wat_visits.specs.Sourced.{Sourced, IsFirstIn};
ghost use Rattle.wat_indexes.specs.Kept.{Kept, AreKept, kept_at, keys_of, with_row_changed};

/// Indexes that are kept for rows answer as a source of these rows must where no key is vacant. And where a row is set to
/// another one, or set or taken out, the indexes that are changed so are those of the rows then.
pub fn index_law()
    ensures first { (s : Sourced) (kept : List Kept) → AreKept s.schema s.rows kept → s.vacant ≡ [] → (i : IndexName) (from : Bound) → IsFirstIn s i from (first_from from (keys_of (kept_at kept i))) }
    ensures change { (c : Catalog) (f : RowName → Option Row) (kept : List Kept) → AreKept c f kept → (name : RowName) (after : Option Row) → RowsFit c f → RowsFit c (set_row sql f name after) → AreKept c (set_row sql f name after) (map (with_row_changed name.table (f name) after) kept) }
{}

ghost use Rattle.std.specs.Prelude.{◌≡◌, ℕ, ◌+◌, length};
ghost use Rattle.wat_value.specs.Encoding.{row_bytes};
ghost use Rattle.wat_rows.specs.Rows.{Row, row_cell, size_of};

/// The cell of a row takes 6 bytes more than the row.
pub fn size_law()
    ensures { (table : ℕ) (row : Row) → size_of (row_cell table row) ≡ 6 + length (row_bytes row) }
{}

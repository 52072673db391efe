ghost use Rattle.std.specs.Prelude.{◌*◌, ◌≤◌, ℕ};
ghost use Rattle.std.specs.Ordering.{nat_cmp};
ghost use Rattle.std.specs.BTreeMap.{IsOrdered};
ghost use Rattle.wat_rows.specs.Rows.{Row, RowMap};
ghost use Rattle.wat_directory.specs.declared.directory.Directory.{Directory as AnyDirectory};
ghost use Rattle.wat_directory.specs.Known.{NoRoomFor, row_pages, used_bytes};

/// Where no row page has room for a row of at most 3,500 bytes, whose cell takes at most 3,506, all row pages have more than 500
/// bytes of cells. So the bytes of cells bound how many row pages are ever taken.
pub fn count_law()
    ensures { (d : AnyDirectory) (rows : RowMap) (table : ℕ) (key : Row) (size : ℕ) → IsOrdered nat_cmp d.pages → size ≤ 3506 → NoRoomFor d rows table key size → 501 * row_pages d ≤ used_bytes d }
{}

ghost use Rattle.std.specs.Prelude.{◌≡◌, IfOk};
ghost use Rattle.std.specs.Option.{option_map};
ghost use Rattle.wat_names.specs.Refusals.{first};
ghost use Rattle.wat_schema.specs.declared.refusal.Refusal.TheVariants.{Duplicate};
ghost use Rattle.wat_serial.specs.Duplicates.{refusals_in};

use std::alloc::Global;
use std::collections::BTreeSet;
use wat_list::NoMemory;
use wat_tables::StoredTable;
use wat_value::{Key, Row, fits};

/// The first key that stands already, where the rows are inserted one after another.
pub(crate) fn first_duplicate(
    alloc: Global,
    table: &StoredTable,
    rows: &[Row],
) -> Result<Option<Key>, NoMemory>
    ensures { IfOk result (λ key. option_map Duplicate key ≡ first (refusals_in table.now rows.now)) }
{
    let def = table.def();
    let mut seen: BTreeSet<Key> = BTreeSet::new(alloc);
    for row in rows {
        let key = def.key_of(alloc, row)?;
        if table.has_key(&key) || seen.contains(&key) {
            return Ok(Some(key));
        }
        if fits(def, row) {
            seen.insert(key)?;
        }
    }
    Ok(None)
}

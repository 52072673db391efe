ghost use Rattle.std.specs.Prelude.{◌≡◌, IfOk};
ghost use Rattle.wat_value.specs.Order.{key_eq};
ghost use Rattle.wat_group.specs.Query.{first_of_each};

use std::alloc::Global;
use std::collections::BTreeSet;
use wat_list::{Copied, Items, NoMemory};
use wat_value::{Rows, Value};

/// The first of equal rows.
pub fn first_of_each(alloc: Global, rows: &Rows) -> Result<Rows, NoMemory>
    ensures { IfOk result (λ kept. kept ≡ first_of_each key_eq rows.now) }
{
    let mut seen: BTreeSet<&[Value]> = BTreeSet::new(alloc);
    let mut kept = Items::new(alloc);
    for row in rows.as_slice() {
        if !seen.insert(row.as_slice())? {
            continue;
        }
        kept.push(row.copy(alloc)?)?;
    }
    Ok(kept)
}

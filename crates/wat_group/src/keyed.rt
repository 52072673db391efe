ghost use Rattle.std.specs.Prelude.{◌≡◌, ◌++◌, IfOk, OnOk};
ghost use Rattle.sqlite_keyed.specs.Lists.{sort_by};
ghost use Rattle.wat_value.specs.Fits.{key_of};
ghost use Rattle.wat_value.specs.Order.{key_cmp};
ghost use Rattle.wat_group.specs.Query.{keys_at, in_key_order};
ghost use Rattle.wat_walk.specs.Lent.{lent};

use std::alloc::Global;
use wat_list::{Copied, Items, NoMemory};
use wat_value::{Combination, Combinations, Row, TableDef, TableDefs, Value, compare_rows};

/// A combination under the values that it is sorted by.
#[derive(Drop)]
pub struct Keyed<'a> {
    pub key: Row,
    pub rows: &'a Combination,
}

/// In the order of their values; those of the same values stay in their order.
pub fn sort_by_keys(keyed: &mut Vec<Keyed>) -> Result<(), NoMemory>
    ensures { OnOk result (keyed.new.items ≡ sort_by (λ a b. key_cmp a.key b.key) keyed.old.items) }
{
    keyed.sort_by(|a, b| compare_rows(a.key.as_slice(), b.key.as_slice()))?;
    Ok(())
}

// The primary key of a row, with Null for each column that it lacks.
fn push_key(alloc: Global, def: &TableDef, row: &[Value], keys: &mut Row) -> Result<(), NoMemory>
    ensures { OnOk result (keys.new ≡ keys.old ++ key_of def.now row.now) }
{
    for column in def.key.as_slice() {
        match row.get(*column as usize) {
            Some(value) => keys.push(value.copy(alloc)?)?,
            None => keys.push(Value::Null)?,
        }
    }
    Ok(())
}

fn keys_at(alloc: Global, defs: &TableDefs, rows: &Combination) -> Result<Row, NoMemory>
    ensures { IfOk result (λ key. key ≡ keys_at defs.now rows.now) }
{
    let mut keys = Items::new(alloc);
    for (def, row) in defs.as_slice().iter().zip(rows.as_slice()) {
        match row {
            Some(row) => push_key(alloc, def, row.as_slice(), &mut keys)?,
            None => push_key(alloc, def, &[], &mut keys)?,
        }
    }
    Ok(keys)
}

/// The combinations in the order of the primary keys of the sources.
pub fn in_key_order<'a>(
    alloc: Global,
    defs: &TableDefs,
    rows: &'a Combinations,
) -> Result<Vec<&'a Combination>, NoMemory>
    ensures { IfOk result (λ ordered. lent ordered.items ≡ in_key_order defs.now rows.now) }
{
    let mut keyed = Vec::new(alloc);
    for rows in rows.as_slice() {
        let key = keys_at(alloc, defs, rows)?;
        keyed.push(Keyed { key, rows })?;
    }
    sort_by_keys(&mut keyed)?;
    let mut ordered = Vec::new(alloc);
    for entry in &keyed {
        ordered.push(entry.rows)?;
    }
    Ok(ordered)
}

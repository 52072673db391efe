use std::alloc::Global;
use wat_list::{Items, NoMemory};
use wat_value::{Combination, Combinations, Name, TableDef, TableDefs, Text, Value};

fn combination(alloc: Global, k: i64, v: i64) -> Result<Combination, NoMemory> {
    let mut row = Items::new(alloc);
    row.push(Value::Int(k))?;
    row.push(Value::Int(v))?;
    row.push(Value::Text(Text::of(alloc, "some words of a row")?))?;
    let mut rows = Items::new(alloc);
    rows.push(Some(row))?;
    Ok(rows)
}

/// So many rows of the table, in no order: a key, a number of which about ten rows have each, and a
/// text.
pub(crate) fn combinations(alloc: Global, count: u64) -> Result<Combinations, NoMemory> {
    let mut met = Items::new(alloc);
    let mut seed: u64 = 12_345;
    for _turn in 0..count {
        seed = seed
            .wrapping_mul(6_364_136_223_846_793_005)
            .wrapping_add(1_442_695_040_888_963_407);
        let k = (seed >> 33) as i64;
        let v = ((seed >> 40) % (count / 10 + 1)) as i64;
        met.push(combination(alloc, k, v)?)?;
    }
    Ok(met)
}

/// The one table, whose first column is its key.
pub(crate) fn defs(alloc: Global) -> Result<TableDefs, NoMemory> {
    let mut defs = Items::new(alloc);
    if let Some(name) = Name::new(alloc, "t")? {
        defs.push(TableDef {
            number: 1,
            name,
            columns: Items::new(alloc),
            key: Items::from_slice(alloc, &[0])?,
        })?;
    }
    Ok(defs)
}

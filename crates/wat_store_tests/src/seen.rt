// What a database holds, as opening it shows.
use crate::calls::Refused;
use std::alloc::{AllocError, Global};
use wat_disk::{Disk, MemoryDisk};
use wat_list::Items;
use wat_opening::{OpenRefusal, open};
use wat_store::Store;
use wat_value::{Key, Row, Value};

// The rows that are looked for, by table and key.
const PLACES: [(u32, i64); 6] = [(1, 1), (1, 2), (1, 3), (1, 4), (2, 1), (2, 2)];

// How many tables and rows there are, and the values in the rows of these keys, 0 where there is none.
#[derive(Clone, Copy, Debug, PartialEq, Eq)]
pub struct Seen {
    pub tables: usize,
    pub rows: usize,
    pub values: [i64; 6],
}

fn key(alloc: Global, number: i64) -> Result<Key, AllocError> {
    let mut values = Items::new(alloc);
    values.push(Value::Int(number))?;
    Ok(Key::of(values))
}

fn value_in(row: Option<&Row>) -> i64 {
    match row.map(|row| row.as_slice()) {
        Some([_, Value::Int(value)]) => *value,
        _ => 0,
    }
}

fn value_at<D: Disk>(
    alloc: Global,
    store: &mut Store<D>,
    table: u32,
    number: i64,
) -> Result<i64, Refused> {
    let key = key(alloc, number)?;
    let row = store.row(table, &key)?;
    Ok(value_in(row.as_ref()))
}

fn seen_in<D: Disk>(alloc: Global, store: &mut Store<D>) -> Result<Seen, Refused> {
    let mut values = [0; 6];
    for i in 0..6 {
        let (table, number) = PLACES[i];
        values[i] = value_at(alloc, store, table, number)?;
    }
    Ok(Seen {
        tables: store.schema().defs()?.len(),
        rows: store.keys(1)?.len().saturating_add(store.keys(2)?.len()),
        values,
    })
}

// What is seen once the database is opened, none where it isn't made yet, and the disk then.
pub fn seen_on(alloc: Global, disk: MemoryDisk) -> (MemoryDisk, Result<Option<Seen>, Refused>) {
    match open(alloc, disk) {
        Ok(store) => {
            let mut store = store;
            let seen = seen_in(alloc, &mut store);
            (store.into_disk(), seen.map(Some))
        }
        Err(OpenRefusal { why, disk }) => match Refused::from(why) {
            Refused::Unmade => (disk, Ok(None)),
            refused => (disk, Err(refused)),
        },
    }
}

ghost use Rattle.std.specs.Prelude.{◌≡◌, [], IfOk, OnOk};
ghost use Rattle.std.specs.Option.{option_copied};
ghost use Rattle.wat_value.specs.Bounds.{first_from};
ghost use Rattle.wat_value.specs.Fits.{value_in, values_in};
ghost use Rattle.wat_indexes.specs.Kept.{is_of, key_entered, key_left, with_row_changed};

use std::alloc::Global;
use std::marker::Model;
use wat_index::VecIndex;
use wat_list::{Copied, NoMemory};
use wat_value::{Bound, Key, Place, Row, Value};

/// An index of a table as it is kept: the columns of its keys, and the keys.
#[derive(Drop)]
pub struct KeptIndex {
    table: u32,
    index: u8,
    columns: Vec<u8>,
    keys: VecIndex,
}

impl Model for KeptIndex {
    ghost use Rattle.wat_indexes.specs.Kept.{Kept};

    ghost Value = { Kept };

    ghost view = { λ k. record { table = k.table; index = k.index; columns = k.columns.items; keys = k.keys } };
}

fn value_in(alloc: Global, row: &Row, column: u8) -> Result<Value, NoMemory>
    ensures { IfOk result (λ value. value ≡ value_in row.now column) }
{
    match row.get(column as usize) {
        Some(value) => value.copy(alloc),
        None => Ok(Value::Null),
    }
}

// The values of the row in these columns.
fn key_in(alloc: Global, row: &Row, columns: &[u8]) -> Result<Key, NoMemory>
    ensures { IfOk result (λ key. key ≡ values_in row.now columns.now) }
{
    let mut key = Key::new(alloc);
    for column in columns {
        key.push(value_in(alloc, row, *column)?)?;
    }
    Ok(key)
}

// The key of the row in these columns is put in.
fn put_key(
    alloc: Global,
    keys: &mut VecIndex,
    columns: &[u8],
    after: Option<&Row>,
) -> Result<(), NoMemory>
    ensures { OnOk result (keys.new ≡ key_entered columns.now (option_copied after.entry) keys.old) }
{
    match after {
        Some(row) => {
            let key = key_in(alloc, row, columns)?;
            keys.add_key(&key)?;
            Ok(())
        }
        None => Ok(()),
    }
}

impl KeptIndex {
    /// An index without keys.
    pub fn new(alloc: Global, table: u32, index: u8, columns: Vec<u8>) -> KeptIndex
        ensures { result ≡ record { table = table; index = index; columns = columns.items; keys = [] } }
    {
        KeptIndex {
            table,
            index,
            columns,
            keys: VecIndex::new(alloc),
        }
    }

    pub(crate) fn is_of(&self, table: u32, index: u8) -> bool
        ensures { result ≡ is_of (record { table = table; index = index }) self.now }
    {
        table == self.table && index == self.index
    }

    /// The first key that the lower bound admits, or the end.
    pub fn first_from(&self, alloc: Global, from: &Bound) -> Result<Place, NoMemory>
        ensures { IfOk result (λ place. place ≡ first_from from.now self.now.keys) }
    {
        match self.keys.first_key_from(from) {
            Some(key) => Ok(Place::At(key.copy(alloc)?)),
            None => Ok(Place::End),
        }
    }

    // The key of the row that stood is taken out.
    fn leave(&mut self, alloc: Global, before: Option<&Row>) -> Result<(), NoMemory>
        ensures { OnOk result (self.new ≡ record self.old { keys = key_left self.old.columns (option_copied before.entry) self.old.keys }) }
    {
        match before {
            Some(row) => {
                let key = key_in(alloc, row, self.columns.as_slice())?;
                self.keys.remove_key(&key);
                Ok(())
            }
            None => Ok(()),
        }
    }

    // The key of the row that stands is put in.
    fn enter(&mut self, alloc: Global, after: Option<&Row>) -> Result<(), NoMemory>
        ensures { OnOk result (self.new ≡ record self.old { keys = key_entered self.old.columns (option_copied after.entry) self.old.keys }) }
    {
        put_key(alloc, &mut self.keys, self.columns.as_slice(), after)?;
        Ok(())
    }

    /// A row of the table with the number, or none, is another one now, or none.
    pub fn change(
        &mut self,
        alloc: Global,
        table: u32,
        before: Option<&Row>,
        after: Option<&Row>,
    ) -> Result<(), NoMemory>
        ensures { OnOk result (self.new ≡ with_row_changed table (option_copied before.entry) (option_copied after.entry) self.old) }
    {
        if table != self.table {
            return Ok(());
        }
        self.leave(alloc, before)?;
        self.enter(alloc, after)
    }
}

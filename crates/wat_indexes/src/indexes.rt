ghost use Rattle.std.specs.Prelude.{◌≡◌, ◌++◌, ◌∷◌, [], map, IfOk, OnOk, OnErr};
ghost use Rattle.std.specs.Option.{option_copied};
ghost use Rattle.wat_value.specs.Bounds.{first_from};
ghost use Rattle.wat_value.specs.Changes.{changed_table, row_after, row_before};
ghost use Rattle.wat_indexes.specs.Kept.{kept_at, keys_of, with_row_changed};

use crate::kept_index::KeptIndex;
use std::alloc::Global;
use std::marker::Model;
use wat_list::NoMemory;
use wat_value::{Bound, Change, Place, Row};

/// The indexes of the tables of a database.
///
/// To find a position costs a logarithm of the keys of its index, beside a search among the indexes. After a want of memory in
/// `change` they are not used again.
#[derive(Drop)]
pub struct Indexes {
    kept: Vec<KeptIndex>,
}

impl Model for Indexes {
    ghost use Rattle.std.specs.Prelude.{List};
    ghost use Rattle.wat_indexes.specs.Kept.{Kept};

    ghost Value = { List Kept };

    ghost view = { λ i. i.kept.items };
}

// The table, the row before the change and the row after it.
fn parts(change: &Change) -> (u32, Option<&Row>, Option<&Row>)
    ensures table { result.0 ≡ changed_table change.now }
    ensures before { option_copied result.1 ≡ row_before change.now }
    ensures after { option_copied result.2 ≡ row_after change.now }
{
    match change {
        Change::Insert { table, row } => (*table, None, Some(row)),
        Change::Update {
            table,
            before,
            after,
        } => (*table, Some(before), Some(after)),
        Change::Delete { table, before } => (*table, Some(before), None),
    }
}

fn change_each(
    alloc: Global,
    kept: &mut [KeptIndex],
    table: u32,
    before: Option<&Row>,
    after: Option<&Row>,
) -> Result<(), NoMemory>
    ensures { OnOk result (kept.new ≡ map (with_row_changed table (option_copied before.entry) (option_copied after.entry)) kept.old) }
{
    for index in kept.iter_mut() {
        index.change(alloc, table, before, after)?;
    }
    Ok(())
}

impl Indexes {
    /// No index.
    pub fn new(alloc: Global) -> Indexes
        ensures { result ≡ [] }
    {
        Indexes {
            kept: Vec::new(alloc),
        }
    }

    /// Keeps this index too.
    pub fn add(&mut self, index: KeptIndex) -> Result<(), NoMemory>
        ensures after { OnOk result (self.new ≡ self.old ++ index ∷ []) }
        ensures kept { OnErr result (self.new ≡ self.old) }
    {
        self.kept.push(index)?;
        Ok(())
    }

    fn index(&self, table: u32, index: u8) -> Option<&KeptIndex>
        ensures { option_copied result ≡ kept_at self.now (record { table = table; index = index }) }
    {
        self.kept
            .as_slice()
            .iter()
            .find(|kept| kept.is_of(table, index))
    }

    /// The first key of the index that the lower bound admits, or the end.
    pub fn successor(
        &self,
        alloc: Global,
        table: u32,
        index: u8,
        from: &Bound,
    ) -> Result<Place, NoMemory>
        ensures { IfOk result (λ place. place ≡ first_from from.now (keys_of (kept_at self.now (record { table = table; index = index })))) }
    {
        match self.index(table, index) {
            Some(kept) => kept.first_from(alloc, from),
            None => Ok(Place::End),
        }
    }

    /// A row changed so: in each index of its table its key is taken out and put in. To undo a change its inverse is made.
    pub fn change(&mut self, alloc: Global, change: &Change) -> Result<(), NoMemory>
        ensures { OnOk result (self.new ≡ map (with_row_changed (changed_table change.now) (row_before change.now) (row_after change.now)) self.old) }
    {
        let (table, before, after) = parts(change);
        change_each(alloc, &mut self.kept, table, before, after)
    }
}

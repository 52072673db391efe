ghost use Rattle.std.specs.Prelude.{◌≡◌, [], IfOk, Err, None, Some};
ghost use Rattle.wat_faults.specs.Faults.{HasCause};
ghost use Rattle.wat_value.specs.Changes.{changed_row, row_before};
ghost use Rattle.wat_schema.specs.Tables.{Row as Stored};
ghost use Rattle.wat_visits.specs.declared.source.SourceError.TheVariants.{Failed, Memory};
ghost use Rattle.wat_visits.specs.Sourced.{Sourced};
ghost use Rattle.wat_exec.specs.Asked.{AreSpots, IsAsked};

use crate::spots::spots_of;
use std::alloc::Global;
use wat_level::{Spots, change_wants};
use wat_list::Items;
use wat_locks::Wants;
use wat_plan::SourceTable;
use wat_value::{Change, Row};
use wat_visits::{RowSource, SourceError};

/// What a change asks, and the row that stands under the primary key of a row to be inserted.
#[derive(Drop)]
pub(crate) struct Asked {
    pub(crate) wants: Wants,
    pub(crate) standing: Option<Row>,
}

fn standing<R: RowSource>(
    alloc: Global,
    rows: &mut R,
    table: &SourceTable,
    change: &Change,
) -> Result<Option<Row>, SourceError>
    ensures stands { (s : Sourced) → R.stands_for rows.old s → row_before change.now ≡ None → IfOk result (λ row. row ≡ s.rows (changed_row table.now.def change.now)) }
    ensures no_insert { (before : Stored) → row_before change.now ≡ Some before → IfOk result (λ row. row ≡ None) }
    ensures stays { (s : Sourced) → R.stands_for rows.old s → R.stands_for rows.new s }
    ensures beside { R.goes rows.old rows.new }
    ensures cause { HasCause (R.failures rows.old) (R.failures rows.new) (result ≡ Err SourceError.Failed) }
{
    match change {
        Change::Insert { table: number, row } => {
            let key = table.def().key_of(alloc, row)?;
            rows.row(*number, &key)
        }
        Change::Update {
            table: _,
            before: _,
            after: _,
        } => Ok(None),
        Change::Delete {
            table: _,
            before: _,
        } => Ok(None),
    }
}

// What the keys ask that the change moves; nothing where a row stands under the key of a row to be inserted.
fn spots_if_free<R: RowSource>(
    alloc: Global,
    rows: &mut R,
    table: &SourceTable,
    change: &Change,
    standing: &Option<Row>,
) -> Result<Spots, SourceError>
    ensures free { standing.now ≡ None → IfOk result (AreSpots (R.stands_for rows.old) table.now change.now) }
    ensures taken { (row : Stored) → standing.now ≡ Some row → IfOk result (λ spots. spots ≡ []) }
    ensures stays { (s : Sourced) → R.stands_for rows.old s → R.stands_for rows.new s }
    ensures beside { R.goes rows.old rows.new }
    ensures cause { HasCause (R.failures rows.old) (R.failures rows.new) (result ≡ Err SourceError.Failed) }
{
    match standing {
        Some(_) => Ok(Items::new(alloc)),
        None => spots_of(alloc, rows, table, change),
    }
}

/// What is asked of a change of a row of the table.
pub(crate) fn asked_of<R: RowSource>(
    alloc: Global,
    rows: &mut R,
    table: &SourceTable,
    change: &Change,
) -> Result<Asked, SourceError>
    ensures asked { IfOk result (λ a. IsAsked (R.stands_for rows.old) table.now change.now a.standing a.wants) }
    ensures stays { (s : Sourced) → R.stands_for rows.old s → R.stands_for rows.new s }
    ensures beside { R.goes rows.old rows.new }
    ensures cause { HasCause (R.failures rows.old) (R.failures rows.new) (result ≡ Err SourceError.Failed) }
{
    let standing = standing(alloc, rows, table, change)?;
    let spots = spots_if_free(alloc, rows, table, change, &standing)?;
    let wants = change_wants(alloc, table.def(), change, &spots)?;
    Ok(Asked { wants, standing })
}

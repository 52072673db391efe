ghost use Rattle.std.specs.Prelude.{◌≡◌, map, IfOk};
ghost use Rattle.std.specs.List.{zip};
ghost use Rattle.wat_value.specs.declared.change.Change.TheVariants as change;
ghost use Rattle.wat_meaning.specs.Meaning.{deleted, sole_row, updated};
ghost use Rattle.wat_changing.specs.Decided.{made_of};

use crate::counted::Counted;
use crate::deciding::{Decision, tested};
use crate::meeting::rows_met;
use std::alloc::Global;
use wat_ast::SetItem;
use wat_list::{Copied, NoMemory};
use wat_made::{rows_after, sole_row};
use wat_schema::Refusal;
use wat_value::{Change, Combination, Row, TableDef};

fn updates(
    alloc: Global,
    table: u32,
    before: &[Combination],
    after: &[Row],
) -> Result<Vec<Change>, NoMemory>
    ensures { IfOk result (λ changes. changes.items ≡ map (λ x. change.Update table (sole_row x.0) x.1) (zip before.now after.now)) }
{
    let mut changes = Vec::new(alloc);
    for (rows, after) in before.iter().zip(after.iter()) {
        let before = sole_row(alloc, rows)?;
        let after = after.copy(alloc)?;
        changes.push(Change::Update {
            table,
            before,
            after,
        })?;
    }
    Ok(changes)
}

/// An UPDATE of the rows that were met, in primary key order.
pub(crate) fn updated(
    alloc: Global,
    def: &TableDef,
    sets: &[SetItem],
    met: &[Combination],
) -> Result<Decision, NoMemory>
    ensures { IfOk result (λ d. made_of d ≡ updated sets.now met.now def.now) }
{
    let sorted = rows_met(alloc, def, met)?;
    let before = sorted.as_slice();
    let Some(after) = rows_after(alloc, def, sets, before)? else {
        return Ok(Decision::Refused(Refusal::Arithmetic));
    };
    let rows = after.as_slice();
    let changes = updates(alloc, def.number, before, rows)?;
    tested(alloc, def, rows, Counted::Updated, changes)
}

fn deletes(alloc: Global, table: u32, before: &[Combination]) -> Result<Vec<Change>, NoMemory>
    ensures { IfOk result (λ changes. changes.items ≡ map (λ rows. change.Delete table (sole_row rows)) before.now) }
{
    let mut changes = Vec::new(alloc);
    for rows in before {
        let before = sole_row(alloc, rows)?;
        changes.push(Change::Delete { table, before })?;
    }
    Ok(changes)
}

/// A DELETE of the rows that were met, in primary key order.
pub(crate) fn deleted(
    alloc: Global,
    def: &TableDef,
    met: &[Combination],
) -> Result<Decision, NoMemory>
    ensures { IfOk result (λ d. made_of d ≡ deleted met.now def.now) }
{
    let sorted = rows_met(alloc, def, met)?;
    let before = sorted.as_slice();
    let changes = deletes(alloc, def.number, before)?;
    tested(alloc, def, &[], Counted::Deleted, changes)
}

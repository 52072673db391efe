ghost use Rattle.std.specs.Prelude.{◌≡◌, map, IfOk};
ghost use Rattle.wat_value.specs.declared.change.Change.TheVariants as change;
ghost use Rattle.wat_meaning.specs.Meaning.{inserted};
ghost use Rattle.wat_scans.specs.Running.{rows_found};
ghost use Rattle.wat_changing.specs.Decided.{made_of};

use crate::counted::Counted;
use crate::deciding::{Decision, tested};
use crate::meeting::defs_of;
use std::alloc::Global;
use wat_ast::{InsertSource, Names};
use wat_group::{Finished, finish};
use wat_list::{Copied, NoMemory};
use wat_made::{given_rows, source_answer};
use wat_plan::Plan;
use wat_schema::{Refusal, Schema};
use wat_value::{Change, Combinations, Row, TableDef};

/// The rows that INSERT takes.
pub(crate) fn rows_found(
    alloc: Global,
    plan: &Plan,
    source: &InsertSource,
    met: &Combinations,
) -> Result<Finished, NoMemory>
    ensures { IfOk result (λ found. found ≡ rows_found plan.now source.now met.now) }
{
    match source {
        // No schema is asked of VALUES.
        InsertSource::Values(_) => source_answer(alloc, &Schema::new(alloc), source, met),
        InsertSource::Answer(query) => {
            let defs = defs_of(alloc, plan)?;
            finish(alloc, query, &defs, met)
        }
    }
}

fn inserts(alloc: Global, table: u32, rows: &[Row]) -> Result<Vec<Change>, NoMemory>
    ensures { IfOk result (λ changes. changes.items ≡ map (change.Insert table) rows.now) }
{
    let mut changes = Vec::new(alloc);
    for row in rows {
        let row = row.copy(alloc)?;
        changes.push(Change::Insert { table, row })?;
    }
    Ok(changes)
}

/// An INSERT of lists of values.
pub(crate) fn inserted(
    alloc: Global,
    def: &TableDef,
    columns: &Option<Names>,
    values: Finished,
) -> Result<Decision, NoMemory>
    ensures { IfOk result (λ d. made_of d ≡ inserted columns.now values def.now) }
{
    let Finished::Rows(values) = values else {
        return Ok(Decision::Refused(Refusal::Arithmetic));
    };
    let given = given_rows(alloc, def, columns, values.as_slice())?;
    let rows = given.as_slice();
    let changes = inserts(alloc, def.number, rows)?;
    tested(alloc, def, rows, Counted::Inserted, changes)
}

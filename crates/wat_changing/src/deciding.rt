ghost use Rattle.std.specs.Prelude.{◌≡◌, Err, IfOk};
ghost use Rattle.std.specs.Option.{option_copied};
ghost use Rattle.wat_schema.specs.declared.refusal.Refusal.TheVariants as refusal;
ghost use Rattle.wat_scans.specs.Running.{made_by};
ghost use Rattle.wat_meaning.specs.Meaning.{changed, shown};
ghost use Rattle.wat_changing.specs.Decided.{made_of, reply_of};

use crate::counted::Counted;
use crate::inserting::{inserted, rows_found};
use crate::meeting::defs_of;
use crate::updating::{deleted, updated};
use std::alloc::Global;
use wat_ast::{Name, Statement};
use wat_group::{Finished, finish};
use wat_list::{Copied, Items, NoMemory};
use wat_made::first_fault;
use wat_plan::{Plan, SourceTable};
use wat_schema::Refusal;
use wat_value::{Change, Combinations, Row, Rows, TableDef};

/// What a statement comes to, when all its visits are made.
#[derive(Drop)]
pub enum Decision {
    Refused(Refusal),
    /// The rows of a SELECT.
    Shown(Rows),
    /// Changes of rows; the reply when they are done counts them.
    Changing {
        counted: Counted,
        changes: Vec<Change>,
    },
}

fn no_table(alloc: Global, name: &Name) -> Result<Decision, NoMemory>
    ensures { IfOk result (λ d. made_of d ≡ Err (refusal.NoTable name.now)) }
{
    let name = name.copy(alloc)?;
    Ok(Decision::Refused(Refusal::NoTable { name }))
}

fn shown(found: Finished) -> Decision
    ensures { made_of result ≡ shown found }
{
    match found {
        Finished::Arithmetic => Decision::Refused(Refusal::Arithmetic),
        Finished::Rows(rows) => Decision::Shown(rows),
    }
}

/// The changes, unless one of the rows that they write is refused by a column.
pub(crate) fn tested(
    alloc: Global,
    def: &TableDef,
    rows: &[Row],
    counted: Counted,
    changes: Vec<Change>,
) -> Result<Decision, NoMemory>
    ensures { IfOk result (λ d. made_of d ≡ changed def.now rows.now (reply_of counted) changes.items) }
{
    match first_fault(alloc, def, rows)? {
        Some(fault) => Ok(Decision::Refused(fault)),
        None => Ok(Decision::Changing { counted, changes }),
    }
}

/// What a statement makes of the combinations that its scans met, by the plan of what it scans and the table that it
/// writes.
pub fn decide(
    alloc: Global,
    statement: &Statement,
    plan: &Plan,
    target: Option<&SourceTable>,
    met: &Combinations,
) -> Result<Decision, NoMemory>
    ensures { IfOk result (λ d. made_of d ≡ made_by (record { statement = statement.now; plan = plan.now; target = option_copied target.entry }) met.now statement.now) }
{
    match statement {
        Statement::Select(query) => {
            let defs = defs_of(alloc, plan)?;
            Ok(shown(finish(alloc, query, &defs, met)?))
        }
        Statement::Insert {
            table,
            columns,
            source,
        } => match target {
            Some(target) => {
                let values = rows_found(alloc, plan, source, met)?;
                inserted(alloc, target.def(), columns, values)
            }
            None => no_table(alloc, table),
        },
        Statement::Update {
            table,
            sets,
            filter: _,
        } => match target {
            Some(target) => updated(alloc, target.def(), sets.as_slice(), met.as_slice()),
            None => no_table(alloc, table),
        },
        Statement::Delete { table, filter: _ } => match target {
            Some(target) => deleted(alloc, target.def(), met.as_slice()),
            None => no_table(alloc, table),
        },
        _ => Ok(Decision::Shown(Items::new(alloc))),
    }
}

//! The statement that writes an act of a log: CREATE and DROP, and INSERT, UPDATE and DELETE of one row.
#![tactic(auto)]

mod changes;
mod columns;
mod schema_changes;

ghost use Rattle.std.specs.Prelude.{◌≡◌, IfOk};
ghost use Rattle.wat_value.specs.Changes.{changed_table};
ghost use Rattle.wat_written.specs.Written.{statement_of};

use std::alloc::Global;
use wat_ast::Statement;
use wat_list::NoMemory;
use wat_schema::Schema;
use wat_value::{Act, Change};

// The number of the table that a change is of.
fn changed_table(change: &Change) -> u32
    ensures { result ≡ changed_table change.now }
{
    match change {
        Change::Insert { table, row: _ } => *table,
        Change::Update {
            table,
            before: _,
            after: _,
        } => *table,
        Change::Delete { table, before: _ } => *table,
    }
}

/// The statement that writes the act over the schema that it is made over. There is none for an act
/// of a table that does not stand, and none for an Update of a table whose columns are all columns of
/// its primary key: that one changes nothing.
pub fn statement_of(
    alloc: Global,
    schema: &Schema,
    act: &Act,
) -> Result<Option<Statement>, NoMemory>
    ensures { IfOk result (λ statement. statement ≡ statement_of schema.now act.now) }
{
    match act {
        Act::OnRow(change) => match schema.def(changed_table(change)) {
            Some(def) => changes::statement_of(alloc, def, change),
            None => Ok(None),
        },
        Act::OnSchema(change) => schema_changes::statement_of(alloc, schema, change),
    }
}

// Acts that are made, and changes that are taken back.
ghost use Rattle.std.specs.Prelude.{◌≡◌, OnOk};
ghost use Rattle.wat_schema.specs.Tables.{inverse};
ghost use Rattle.wat_alone.specs.Alone.{made, taken_back};

use wat_list::{Items, NoMemory};
use wat_tables::Tables;
use wat_value::{Act, Change};

fn inverse(change: Change) -> Change
    ensures { result ≡ inverse change }
{
    match change {
        Change::Insert { table, row } => Change::Delete { table, before: row },
        Change::Update {
            table,
            before,
            after,
        } => Change::Update {
            table,
            before: after,
            after: before,
        },
        Change::Delete { table, before } => Change::Insert { table, row: before },
    }
}

/// Makes the acts one after another.
pub(crate) fn make_all(tables: &mut Tables, acts: &[Act]) -> Result<(), NoMemory>
    ensures { OnOk result (tables.new ≡ made acts.now tables.old) }
{
    for act in acts {
        tables.apply(act)?;
    }
    Ok(())
}

/// Takes the changes back, the last one first.
pub(crate) fn take_back(tables: &mut Tables, changes: Items<Change>) -> Result<(), NoMemory>
    ensures { OnOk result (tables.new ≡ taken_back changes tables.old) }
{
    let mut left = changes;
    while let Some(change) = left.pop() {
        tables.change(&inverse(change))?;
    }
    Ok(())
}

//! A machine over the tables of a database in memory: what the records of a log make of them, computed.
#![tactic(auto)]

ghost use Rattle.std.specs.Prelude.{◌≡◌, IfOk};
ghost use Rattle.wat_schema.specs.Catalog.{empty_catalog};
ghost use Rattle.wat_schema.specs.Tables.{no_tables};
ghost use Rattle.wat_replay.specs.State.{empty_state};
ghost use Rattle.wat_recover.specs.Machine.{state_of};

use std::alloc::Global;
use wat_list::{Copied, Items, NoMemory};
use wat_recover::{ChangeLists, Machine, RowTables};
use wat_schema::Schema;
use wat_tables::Tables;
use wat_value::{Change, Key, Row, SchemaChange, Value};

/// The tables of a database, and the memory that copies of their rows take.
#[derive(Drop)]
pub struct MemoryTables {
    pub alloc: Global,
    pub tables: Tables,
}

fn copied(alloc: Global, values: &[Value]) -> Result<Row, NoMemory>
    ensures { IfOk result (λ row. row ≡ values.now) }
{
    let mut row = Items::new(alloc);
    for value in values {
        row.push(value.copy(alloc)?)?;
    }
    Ok(row)
}

impl RowTables for MemoryTables {
    ghost tables = { λ t. t.tables };

    fn schema(&self) -> &Schema {
        self.tables.schema()
    }

    fn row(&self, table: u32, key: &Key) -> Result<Option<Row>, NoMemory> {
        match self.tables.row(table, key) {
            Some(values) => Ok(Some(copied(self.alloc, values)?)),
            None => Ok(None),
        }
    }

    fn change(&mut self, change: &Change) -> Result<bool, NoMemory> {
        self.tables.change(change)
    }

    fn alter(&mut self, change: &SchemaChange) -> Result<(), NoMemory> {
        self.tables.alter(change)
    }
}

fn tables_of_none(alloc: Global, schema: &Schema) -> Result<Tables, NoMemory>
    requires { schema.now ≡ empty_catalog }
    ensures { IfOk result (λ tables. tables ≡ no_tables) }
{
    match Tables::of(alloc, schema) {
        Ok(tables) => Ok(tables),
        Err(error) => Err(error),
    }
}

fn no_tables(alloc: Global) -> Result<Tables, NoMemory>
    ensures { IfOk result (λ tables. tables ≡ no_tables) }
{
    tables_of_none(alloc, &Schema::new(alloc))
}

/// A machine over the tables of an empty database, with no changes that stand.
pub fn new_machine(alloc: Global) -> Result<Machine<MemoryTables>, NoMemory>
    ensures { IfOk result (λ machine. state_of (λ t. t.tables) machine ≡ empty_state) }
{
    let tables = no_tables(alloc)?;
    let lists = ChangeLists::new(alloc);
    Ok(Machine::new(MemoryTables { alloc, tables }, lists))
}

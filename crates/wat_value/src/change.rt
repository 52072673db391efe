use crate::definition::{IndexDef, TableDef};
use crate::value::Row;
use std::alloc::Global;
use wat_list::{Copied, Items, NoMemory};

/// A change of one row of the table of that number.
#[derive(Debug, Drop)]
pub enum Change {
    Insert { table: u32, row: Row },
    /// Both rows have the same primary key.
    Update { table: u32, before: Row, after: Row },
    Delete { table: u32, before: Row },
}

#[derive(Debug, Drop)]
pub enum SchemaChange {
    CreateTable(TableDef),
    DropTable { table: u32 },
    CreateIndex(IndexDef),
}

/// What a statement does to the tables, one change at a time.
#[derive(Debug, Drop)]
pub enum Act {
    OnRow(Change),
    OnSchema(SchemaChange),
}

pub type Acts = Items<Act>;

impl Copied for Change {
    fn copy(&self, alloc: Global) -> Result<Self, NoMemory> {
        match self {
            Change::Insert { table, row } => {
                let row = row.copy(alloc)?;
                Ok(Change::Insert { table: *table, row })
            }
            Change::Update {
                table,
                before,
                after,
            } => {
                let before = before.copy(alloc)?;
                let after = after.copy(alloc)?;
                Ok(Change::Update {
                    table: *table,
                    before,
                    after,
                })
            }
            Change::Delete { table, before } => {
                let before = before.copy(alloc)?;
                Ok(Change::Delete {
                    table: *table,
                    before,
                })
            }
        }
    }
}

impl Copied for SchemaChange {
    fn copy(&self, alloc: Global) -> Result<Self, NoMemory> {
        match self {
            SchemaChange::CreateTable(def) => {
                let def = def.copy(alloc)?;
                Ok(SchemaChange::CreateTable(def))
            }
            SchemaChange::DropTable { table } => Ok(SchemaChange::DropTable { table: *table }),
            SchemaChange::CreateIndex(def) => {
                let def = def.copy(alloc)?;
                Ok(SchemaChange::CreateIndex(def))
            }
        }
    }
}

impl Copied for Act {
    fn copy(&self, alloc: Global) -> Result<Self, NoMemory> {
        match self {
            Act::OnRow(change) => {
                let change = change.copy(alloc)?;
                Ok(Act::OnRow(change))
            }
            Act::OnSchema(change) => {
                let change = change.copy(alloc)?;
                Ok(Act::OnSchema(change))
            }
        }
    }
}

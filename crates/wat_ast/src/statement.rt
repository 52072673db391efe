use crate::{Expr, Exprs, Name, Names, Query};
use std::alloc::Global;
use wat_list::{Copied, Items, NoMemory};

/// The type of a column. Whether a length is allowed is not asked here.
#[derive(Clone, Copy, Debug, PartialEq, Eq)]
pub enum TypeName {
    Integer,
    Char(i64),
    Varchar(i64),
}

/// A part of CREATE TABLE: a column with its rules, or the columns of the primary key.
#[derive(Drop)]
pub enum Element {
    Column {
        name: Name,
        kind: TypeName,
        nullable: bool,
        key: bool,
    },
    Key(Names),
}

pub type Elements = Items<Element>;

#[derive(Drop)]
pub struct SetItem {
    pub name: Name,
    pub value: Expr,
}

pub type SetItems = Items<SetItem>;

#[derive(Drop)]
pub enum InsertSource {
    Values(Exprs),
    Answer(Query),
}

#[derive(Drop)]
pub enum Statement {
    CreateTable {
        name: Name,
        elements: Elements,
    },
    CreateIndex {
        name: Name,
        table: Name,
        columns: Names,
    },
    DropTable {
        name: Name,
    },
    Insert {
        table: Name,
        columns: Option<Names>,
        source: InsertSource,
    },
    Update {
        table: Name,
        sets: SetItems,
        filter: Option<Expr>,
    },
    Delete {
        table: Name,
        filter: Option<Expr>,
    },
    Select(Query),
    Commit,
    Checkpoint,
    Rollback,
    RollbackTo {
        name: Name,
    },
    Savepoint {
        name: Name,
    },
    Release {
        name: Name,
    },
    /// SET TEMPORARY OPTION ISOLATION_LEVEL, from 0 to 3.
    SetLevel(u8),
    /// SET TEMPORARY OPTION BLOCKING: whether it is on.
    SetBlocking(bool),
}

impl Copied for Element {
    fn copy(&self, alloc: Global) -> Result<Self, NoMemory> {
        match self {
            Element::Column {
                name,
                kind,
                nullable,
                key,
            } => {
                let name = name.copy(alloc)?;
                Ok(Element::Column {
                    name,
                    kind: *kind,
                    nullable: *nullable,
                    key: *key,
                })
            }
            Element::Key(names) => {
                let names = names.copy(alloc)?;
                Ok(Element::Key(names))
            }
        }
    }
}

impl Copied for SetItem {
    fn copy(&self, alloc: Global) -> Result<Self, NoMemory> {
        let name = self.name.copy(alloc)?;
        let value = self.value.copy(alloc)?;
        Ok(SetItem { name, value })
    }
}

impl Copied for InsertSource {
    fn copy(&self, alloc: Global) -> Result<Self, NoMemory> {
        match self {
            InsertSource::Values(values) => {
                let values = values.copy(alloc)?;
                Ok(InsertSource::Values(values))
            }
            InsertSource::Answer(query) => {
                let query = query.copy(alloc)?;
                Ok(InsertSource::Answer(query))
            }
        }
    }
}

impl Copied for Statement {
    fn copy(&self, alloc: Global) -> Result<Self, NoMemory> {
        match self {
            Statement::CreateTable { name, elements } => {
                let name = name.copy(alloc)?;
                let elements = elements.copy(alloc)?;
                Ok(Statement::CreateTable { name, elements })
            }
            Statement::CreateIndex {
                name,
                table,
                columns,
            } => {
                let name = name.copy(alloc)?;
                let table = table.copy(alloc)?;
                let columns = columns.copy(alloc)?;
                Ok(Statement::CreateIndex {
                    name,
                    table,
                    columns,
                })
            }
            Statement::DropTable { name } => {
                let name = name.copy(alloc)?;
                Ok(Statement::DropTable { name })
            }
            Statement::Insert {
                table,
                columns,
                source,
            } => {
                let table = table.copy(alloc)?;
                let columns = columns.copy(alloc)?;
                let source = source.copy(alloc)?;
                Ok(Statement::Insert {
                    table,
                    columns,
                    source,
                })
            }
            Statement::Update {
                table,
                sets,
                filter,
            } => {
                let table = table.copy(alloc)?;
                let sets = sets.copy(alloc)?;
                let filter = filter.copy(alloc)?;
                Ok(Statement::Update {
                    table,
                    sets,
                    filter,
                })
            }
            Statement::Delete { table, filter } => {
                let table = table.copy(alloc)?;
                let filter = filter.copy(alloc)?;
                Ok(Statement::Delete { table, filter })
            }
            Statement::Select(query) => {
                let query = query.copy(alloc)?;
                Ok(Statement::Select(query))
            }
            Statement::Commit => Ok(Statement::Commit),
            Statement::Checkpoint => Ok(Statement::Checkpoint),
            Statement::Rollback => Ok(Statement::Rollback),
            Statement::RollbackTo { name } => {
                let name = name.copy(alloc)?;
                Ok(Statement::RollbackTo { name })
            }
            Statement::Savepoint { name } => {
                let name = name.copy(alloc)?;
                Ok(Statement::Savepoint { name })
            }
            Statement::Release { name } => {
                let name = name.copy(alloc)?;
                Ok(Statement::Release { name })
            }
            Statement::SetLevel(level) => Ok(Statement::SetLevel(*level)),
            Statement::SetBlocking(on) => Ok(Statement::SetBlocking(*on)),
        }
    }
}

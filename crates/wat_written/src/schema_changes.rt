ghost use Rattle.std.specs.Prelude.{◌≡◌, map, IfOk};
ghost use Rattle.wat_ast.specs.declared.statement.Statement.TheVariants.{DropTable};
ghost use Rattle.wat_written.specs.Written.{column_element, create_index, create_table, statement_of_schema, type_of};

use crate::columns::names_at;
use std::alloc::Global;
use wat_ast::{Element, Elements, Statement, TypeName};
use wat_list::{Copied, Items, NoMemory};
use wat_schema::Schema;
use wat_value::{Column, IndexDef, Kind, SchemaChange, TableDef};

fn type_of(kind: Kind) -> TypeName
    ensures { result ≡ type_of kind }
{
    match kind {
        Kind::Integer => TypeName::Integer,
        Kind::Char(n) => TypeName::Char(n as i64),
        Kind::Varchar(n) => TypeName::Varchar(n as i64),
    }
}

fn column_element(alloc: Global, column: &Column) -> Result<Element, NoMemory>
    ensures { IfOk result (λ element. element ≡ column_element column.now) }
{
    let name = column.name.copy(alloc)?;
    Ok(Element::Column {
        name,
        kind: type_of(column.kind),
        nullable: column.nullable,
        key: false,
    })
}

fn column_elements(alloc: Global, columns: &[Column]) -> Result<Elements, NoMemory>
    ensures { IfOk result (λ elements. elements ≡ map column_element columns.now) }
{
    let mut elements = Items::new(alloc);
    for column in columns {
        let element = column_element(alloc, column)?;
        elements.push(element)?;
    }
    Ok(elements)
}

fn create_table(alloc: Global, def: &TableDef) -> Result<Statement, NoMemory>
    ensures { IfOk result (λ statement. statement ≡ create_table def.now) }
{
    let name = def.name.copy(alloc)?;
    let key = names_at(alloc, def, def.key.as_slice())?;
    let mut elements = column_elements(alloc, def.columns.as_slice())?;
    elements.push(Element::Key(key))?;
    Ok(Statement::CreateTable { name, elements })
}

fn drop_table(alloc: Global, def: &TableDef) -> Result<Statement, NoMemory>
    ensures { IfOk result (λ statement. statement ≡ DropTable def.now.name) }
{
    let name = def.name.copy(alloc)?;
    Ok(Statement::DropTable { name })
}

fn create_index(alloc: Global, index: &IndexDef, def: &TableDef) -> Result<Statement, NoMemory>
    ensures { IfOk result (λ statement. statement ≡ create_index index.now def.now) }
{
    let name = index.name.copy(alloc)?;
    let table = def.name.copy(alloc)?;
    let columns = names_at(alloc, def, index.columns.as_slice())?;
    Ok(Statement::CreateIndex {
        name,
        table,
        columns,
    })
}

/// The statement that writes a change of the schema.
pub(crate) fn statement_of(
    alloc: Global,
    schema: &Schema,
    change: &SchemaChange,
) -> Result<Option<Statement>, NoMemory>
    ensures { IfOk result (λ statement. statement ≡ statement_of_schema schema.now change.now) }
{
    match change {
        SchemaChange::CreateTable(def) => {
            let statement = create_table(alloc, def)?;
            Ok(Some(statement))
        }
        SchemaChange::DropTable { table } => match schema.def(*table) {
            Some(def) => {
                let statement = drop_table(alloc, def)?;
                Ok(Some(statement))
            }
            None => Ok(None),
        },
        SchemaChange::CreateIndex(index) => match schema.def(index.table) {
            Some(def) => {
                let statement = create_index(alloc, index, def)?;
                Ok(Some(statement))
            }
            None => Ok(None),
        },
    }
}

// Rows that are inserted without more ado.
ghost use Rattle.std.specs.Prelude.{◌≡◌, IfOk, IfSome};
ghost use Rattle.wat_meaning.specs.Meaning.{meaning};
ghost use Rattle.wat_serial.specs.Plain.{IsPlain, IsRowOf, MeansRow, insert_of, literals, row_inserted};

use crate::changing::refused;
use std::alloc::Global;
use wat_ast::{Expr, InsertSource, Name, Statement};
use wat_list::{Copied, Items, NoMemory};
use wat_meaning::{Meaning, Reply};
use wat_schema::Refusal;
use wat_tables::{StoredTable, Tables};
use wat_value::{Act, Change, Row, fits};

/// A row that fits the table with the number.
#[derive(Drop)]
pub(crate) struct PlainRow {
    pub table: u32,
    pub row: Row,
}

// The values, where each expression is a literal.
fn literals(alloc: Global, exprs: &[Expr]) -> Result<Option<Row>, NoMemory>
    ensures { IfOk result (λ found. IfSome found (λ row. exprs.now ≡ literals row)) }
{
    let mut row = Vec::with_capacity(alloc, exprs.len())?;
    for expr in exprs {
        match expr {
            Expr::Literal(value) => row.push(value.copy(alloc)?)?,
            _ => return Ok(None),
        }
    }
    Ok(Some(Items::from_vec(row)))
}

// The row that the expressions write, where each is a literal and the row fits the table.
fn row_written(
    alloc: Global,
    table: &StoredTable,
    exprs: &[Expr],
) -> Result<Option<PlainRow>, NoMemory>
    ensures { IfOk result (λ found. IfSome found (λ plain. IsRowOf table.now exprs.now plain.table plain.row)) }
{
    let Some(row) = literals(alloc, exprs)? else {
        return Ok(None);
    };
    let def = table.def();
    if !fits(def, &row) {
        return Ok(None);
    }
    let table = def.number;
    Ok(Some(PlainRow { table, row }))
}

// The row that INSERT INTO the table with the name VALUES of these writes, where it is plain.
fn plain_insert(
    alloc: Global,
    tables: &Tables,
    name: &Name,
    exprs: &[Expr],
) -> Result<Option<PlainRow>, NoMemory>
    ensures { IfOk result (λ found. IfSome found (λ plain. IsPlain tables.now (insert_of name.now exprs.now) plain.table plain.row)) }
{
    tables.tables_law();
    match tables.table(name.as_str()) {
        Some(table) => row_written(alloc, table, exprs),
        None => Ok(None),
    }
}

/// The row of an INSERT of VALUES that names no column, where each value is a literal and the row fits:
/// the checks have nothing to say of it. A row that is written otherwise may be found plain or not.
pub(crate) fn plain_row(
    alloc: Global,
    statement: &Statement,
    tables: &Tables,
) -> Result<Option<PlainRow>, NoMemory>
    ensures { IfOk result (λ found. IfSome found (λ plain. IsPlain tables.now statement.now plain.table plain.row)) }
{
    match statement {
        Statement::Insert {
            table,
            columns: None,
            source: InsertSource::Values(exprs),
        } => plain_insert(alloc, tables, table, exprs.as_slice()),
        _ => Ok(None),
    }
}

// What inserting a row that fits the table means.
fn row_inserted(alloc: Global, table: &StoredTable, row: Row) -> Result<Meaning, NoMemory>
    ensures { IfOk result (λ m. m ≡ row_inserted table.now row) }
{
    let def = table.def();
    let key = def.key_of(alloc, &row)?;
    if table.has_key(&key) {
        return Ok(refused(alloc, Refusal::Duplicate { key }));
    }
    let table = def.number;
    let mut acts = Vec::with_capacity(alloc, 1)?;
    acts.push(Act::OnRow(Change::Insert { table, row }))?;
    Ok(Meaning {
        answer: Reply::Inserted(1),
        acts: Items::from_vec(acts),
    })
}

fn meant_by_row(
    alloc: Global,
    table: &StoredTable,
    plain: PlainRow,
) -> Result<Option<Meaning>, NoMemory>
    ensures { IfOk result (λ found. IfSome found (λ m. m ≡ row_inserted table.now plain.row)) }
{
    let PlainRow { table: _, row } = plain;
    let meant = row_inserted(alloc, table, row)?;
    Ok(Some(meant))
}

// What inserting the row that the expressions write means, where each is a literal and the row fits the table.
fn written_meaning(
    alloc: Global,
    table: &StoredTable,
    exprs: &[Expr],
) -> Result<Option<Meaning>, NoMemory>
    ensures { IfOk result (λ found. IfSome found (λ m. MeansRow table.now exprs.now m)) }
{
    let written = row_written(alloc, table, exprs)?;
    match written {
        Some(plain) => meant_by_row(alloc, table, plain),
        None => Ok(None),
    }
}

// What INSERT INTO the table with the name VALUES of these means, where the row is plain.
fn insert_meaning(
    alloc: Global,
    tables: &Tables,
    name: &Name,
    exprs: &[Expr],
) -> Result<Option<Meaning>, NoMemory>
    ensures { IfOk result (λ found. IfSome found (λ m. m ≡ meaning tables.now (insert_of name.now exprs.now))) }
{
    tables.tables_law();
    match tables.table(name.as_str()) {
        Some(table) => written_meaning(alloc, table, exprs),
        None => Ok(None),
    }
}

/// What an INSERT of a plain row means, without its checks.
pub(crate) fn plain_meaning(
    alloc: Global,
    statement: &Statement,
    tables: &Tables,
) -> Result<Option<Meaning>, NoMemory>
    ensures { IfOk result (λ found. IfSome found (λ m. m ≡ meaning tables.now statement.now)) }
{
    match statement {
        Statement::Insert {
            table,
            columns: None,
            source: InsertSource::Values(exprs),
        } => insert_meaning(alloc, tables, table, exprs.as_slice()),
        _ => Ok(None),
    }
}

// Logs, byte by byte.
use std::alloc::{AllocError, Global};

/// A value of a row.
#[derive(Clone, Copy)]
pub enum Cell<'a> {
    Null,
    Int(i64),
    Text(&'a str),
}

/// The bytes in front of what records tell.
const CHANGED: u8 = 1;

const UNDO_TO: u8 = 2;

const COMMIT: u8 = 3;

const ROLLBACK: u8 = 4;

/// The bytes in front of changes.
const INSERT: u8 = 1;

const UPDATE: u8 = 2;

const DELETE: u8 = 3;

fn push_cell(body: &mut Vec<u8>, cell: Cell) -> Result<(), AllocError> {
    match cell {
        Cell::Null => {
            body.push(0)?;
            Ok(())
        }
        Cell::Int(number) => {
            body.push(1)?;
            body.extend_from_slice(&number.to_be_bytes())
        }
        Cell::Text(text) => {
            body.push(2)?;
            body.extend_from_slice(&(text.len().min(65535) as u16).to_be_bytes())?;
            body.extend_from_slice(text.as_bytes())
        }
    }
}

fn push_row(body: &mut Vec<u8>, row: &[Cell]) -> Result<(), AllocError> {
    body.extend_from_slice(&(row.len().min(65535) as u16).to_be_bytes())?;
    for cell in row {
        push_cell(body, *cell)?;
    }
    Ok(())
}

fn push_changed(body: &mut Vec<u8>, conn: u16, change: u8, table: u32) -> Result<(), AllocError> {
    body.push(CHANGED)?;
    body.extend_from_slice(&conn.to_be_bytes())?;
    body.push(change)?;
    body.extend_from_slice(&table.to_be_bytes())
}

/// The connection inserted the row into the table of this number.
pub fn push_insert(
    body: &mut Vec<u8>,
    conn: u16,
    table: u32,
    row: &[Cell],
) -> Result<(), AllocError> {
    push_changed(body, conn, INSERT, table)?;
    push_row(body, row)
}

/// The connection changed the row.
pub fn push_update(
    body: &mut Vec<u8>,
    conn: u16,
    table: u32,
    before: &[Cell],
    after: &[Cell],
) -> Result<(), AllocError> {
    push_changed(body, conn, UPDATE, table)?;
    push_row(body, before)?;
    push_row(body, after)
}

/// The connection deleted the row.
pub fn push_delete(
    body: &mut Vec<u8>,
    conn: u16,
    table: u32,
    row: &[Cell],
) -> Result<(), AllocError> {
    push_changed(body, conn, DELETE, table)?;
    push_row(body, row)
}

/// The first `count` changes of the connection stay.
pub fn push_undo_to(body: &mut Vec<u8>, conn: u16, count: u32) -> Result<(), AllocError> {
    body.push(UNDO_TO)?;
    body.extend_from_slice(&conn.to_be_bytes())?;
    body.extend_from_slice(&count.to_be_bytes())
}

pub fn push_commit(body: &mut Vec<u8>, conn: u16) -> Result<(), AllocError> {
    body.push(COMMIT)?;
    body.extend_from_slice(&conn.to_be_bytes())
}

pub fn push_rollback(body: &mut Vec<u8>, conn: u16) -> Result<(), AllocError> {
    body.push(ROLLBACK)?;
    body.extend_from_slice(&conn.to_be_bytes())
}

/// A log with this frame behind the others.
pub fn framed(alloc: Global, log: &[u8], body: &[u8]) -> Result<Vec<u8>, AllocError> {
    let mut longer = Vec::from_slice(alloc, log)?;
    longer.pop();
    longer.push(0xA5)?;
    longer.extend_from_slice(&(body.len().min(2000000) as u32).to_be_bytes())?;
    longer.extend_from_slice(body)?;
    longer.push(0)?;
    Ok(longer)
}

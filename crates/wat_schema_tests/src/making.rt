//! Definitions to make a schema of.

use std::alloc::{AllocError, Global};
use wat_list::Items;
use wat_value::{Column, Columns, IndexDef, Kind, Name, Ordinals, TableDef};

fn name(alloc: Global, text: &str) -> anyhow::Result<Name> {
    match Name::new(alloc, text)? {
        Some(name) => Ok(name),
        None => Err(anyhow::Error::msg("no name")),
    }
}

fn column(alloc: Global, text: &str, nullable: bool) -> anyhow::Result<Column> {
    let name = name(alloc, text)?;
    Ok(Column {
        name,
        kind: Kind::Integer,
        nullable,
    })
}

/// A column of integers, as in `k`, or of texts of at most a length, as in `v=20`.
fn described(alloc: Global, text: &str) -> anyhow::Result<Column> {
    let mut column = column(alloc, text.split('=').next().unwrap_or(text), false)?;
    if let Some((_, length)) = text.split_once('=') {
        let most: u16 = length.parse()?;
        column.kind = Kind::Varchar(most);
    }
    Ok(column)
}

/// The columns that a text lists, as in `k,v=20`.
pub(crate) fn columns(alloc: Global, text: &str) -> anyhow::Result<Columns> {
    let mut columns = Items::new(alloc);
    for part in text.split(',') {
        columns.push(described(alloc, part)?)?;
    }
    Ok(columns)
}

/// The names that a text lists, as in `k,v`; `-` lists none.
pub(crate) fn names(alloc: Global, text: &str) -> anyhow::Result<Items<Name>> {
    let mut names = Items::new(alloc);
    if text != "-" {
        for part in text.split(',') {
            names.push(name(alloc, part)?)?;
        }
    }
    Ok(names)
}

/// The numbers that a text lists, as in `0,1`; `-` lists none.
pub(crate) fn numbers(alloc: Global, text: &str) -> anyhow::Result<Ordinals> {
    let mut numbers = Items::new(alloc);
    if text != "-" {
        for part in text.split(',') {
            let number: u8 = part.parse()?;
            numbers.push(number)?;
        }
    }
    Ok(numbers)
}

/// A column's number, so many times.
pub(crate) fn ordinals(alloc: Global, column: u8, times: u32) -> Result<Ordinals, AllocError> {
    let mut numbers = Items::new(alloc);
    for _ in 0..times {
        numbers.push(column)?;
    }
    Ok(numbers)
}

/// A table with the columns `k`, which is its primary key, and `v`, which may be NULL.
pub(crate) fn table(alloc: Global, number: u32, text: &str) -> anyhow::Result<TableDef> {
    let mut columns = Items::new(alloc);
    columns.push(column(alloc, "k", false)?)?;
    columns.push(column(alloc, "v", true)?)?;
    let name = name(alloc, text)?;
    let key = ordinals(alloc, 0, 1)?;
    Ok(TableDef {
        number,
        name,
        columns,
        key,
    })
}

/// An index on the column `k`.
pub(crate) fn index(alloc: Global, table: u32, number: u8, text: &str) -> anyhow::Result<IndexDef> {
    let name = name(alloc, text)?;
    let columns = ordinals(alloc, 0, 1)?;
    Ok(IndexDef {
        number,
        table,
        name,
        columns,
    })
}

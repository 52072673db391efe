//! Whether rows fit a table, and their keys.
use crate::maps::key;
use std::alloc::Global;
use std::test::Fail;
use wat_list::{Copied, Items, NoMemory};
use wat_value::{
    Act, Change, Column, Columns, IndexDef, Kind, Name, Row, TableDef, Text, Value, fits,
};

fn name(alloc: Global, text: &str) -> Result<Name, Fail> {
    Ok(Name::new(alloc, text)?.ok_or("no name")?)
}

/// k INTEGER NOT NULL, s VARCHAR(2)
fn columns(alloc: Global) -> Result<Columns, Fail> {
    let mut columns = Items::new(alloc);
    for (text, kind, nullable) in [("k", Kind::Integer, false), ("s", Kind::Varchar(2), true)] {
        let name = name(alloc, text)?;
        columns.push(Column {
            name,
            kind,
            nullable,
        })?;
    }
    Ok(columns)
}

/// Table 1, with the primary key k.
fn table(alloc: Global) -> Result<TableDef, Fail> {
    Ok(TableDef {
        number: 1,
        name: name(alloc, "t")?,
        columns: columns(alloc)?,
        key: Items::from_slice(alloc, &[0])?,
    })
}

/// The row of an integer and a text.
fn row(alloc: Global, n: i64, text: &str) -> Result<Row, NoMemory> {
    let mut row = Items::new(alloc);
    row.push(Value::Int(n))?;
    row.push(Value::Text(Text::joined(alloc, text, "")?))?;
    Ok(row)
}

#[test]
fn rows_that_fit_their_table(rt: HostRuntime) -> Result<(), Fail> {
    let def = table(rt.alloc())?;
    let cases: [(i64, &str, bool); 6] = [
        (-2_147_483_648, "ab", true),
        (2_147_483_647, "", true),
        (2_147_483_648, "", false),
        (-2_147_483_649, "", false),
        (0, "abc", false),
        (0, "\u{e9}e", false),
    ];
    for (n, text, fitting) in cases {
        assert_eq!(rt;
            fits(&def, &row(rt.alloc(), n, text)?),
            fitting,
            "{n} {text}"
        );
    }
    Ok(())
}

/// Whether a row of these values fits the table.
fn is_fitting(alloc: Global, def: &TableDef, values: &[Option<i64>]) -> Result<bool, NoMemory> {
    let mut row = Items::new(alloc);
    for value in values {
        row.push(match value {
            Some(n) => Value::Int(*n),
            None => Value::Null,
        })?;
    }
    Ok(fits(def, &row))
}

#[test]
fn values_of_a_row_are_one_per_column(rt: HostRuntime) -> Result<(), Fail> {
    let def = table(rt.alloc())?;
    let cases: [(&[Option<i64>], bool); 5] = [
        (&[], false),
        (&[Some(1)], false),
        (&[Some(1), None], true),
        (&[Some(1), Some(1)], false),
        (&[None, None], false),
    ];
    for (values, fitting) in cases {
        assert_eq!(rt;
            is_fitting(rt.alloc(), &def, values)?,
            fitting,
            "{values:?}"
        );
    }
    assert!(rt; !is_fitting(rt.alloc(), &def, &[Some(1), None, None])?);
    Ok(())
}

/// The index of s.
fn index(alloc: Global) -> Result<IndexDef, Fail> {
    Ok(IndexDef {
        number: 1,
        table: 1,
        name: name(alloc, "i")?,
        columns: Items::from_slice(alloc, &[1])?,
    })
}

#[test]
fn a_primary_key_is_the_values_of_its_columns(rt: HostRuntime) -> Result<(), Fail> {
    let def = table(rt.alloc())?.copy(rt.alloc())?;
    let row = row(rt.alloc(), 7, "b")?;
    assert!(rt; def.key_of(rt.alloc(), &row)? == key(rt.alloc(), &[7])?);
    Ok(())
}

#[test]
fn the_key_in_an_index_ends_with_the_primary_key(rt: HostRuntime) -> Result<(), Fail> {
    let row = row(rt.alloc(), 7, "b")?;
    let key = index(rt.alloc())?.key_of(rt.alloc(), &table(rt.alloc())?, &row)?;
    match key.as_slice() {
        [Value::Text(text), Value::Int(7)] => assert_eq!(rt; text.as_str(), "b"),
        _ => panic!(rt; "{key:?}"),
    }
    Ok(())
}

#[test]
fn a_copy_of_an_act(rt: HostRuntime) -> Result<(), Fail> {
    let row = row(rt.alloc(), 7, "it's")?;
    let act = Act::OnRow(Change::Insert { table: 1, row });
    match act.copy(rt.alloc())? {
        Act::OnRow(Change::Insert { table: 1, row }) => assert_eq!(rt; row.len(), 2),
        _ => panic!(rt; "another act"),
    }
    Ok(())
}

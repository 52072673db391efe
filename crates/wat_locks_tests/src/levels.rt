//! What visits and changes ask.
use crate::fixtures::{END, key, lock, place};
use std::alloc::Global;
use std::test::Fail;
use wat_level::{Spot, Spots, Visit, change_wants, visit_wants};
use wat_list::{Items, NoMemory};
use wat_locks::LockKind::{AntiPhantom, Phantom, Read, Write};
use wat_locks::{LockKind, Wants};
use wat_value::{Change, Column, Kind, Name, Row, TableDef, Value};

/// A lock by its kind, its index and its row or place.
type Expected = (LockKind, u8, i64);

/// Whether the wants are those, short ones for scan 3 where it is said so.
fn are(alloc: Global, wants: &Wants, expected: &[Expected], short: bool) -> Result<bool, NoMemory> {
    if wants.len() != expected.len() {
        return Ok(false);
    }
    for (want, (kind, index, n)) in wants.as_slice().iter().zip(expected) {
        let same = want.lock == lock(alloc, *kind, *index, *n)?;
        if !same || want.short.is_some() != short {
            return Ok(false);
        }
    }
    Ok(true)
}

/// Of scan 3, at place 5 of the primary key or past the interval at the end.
fn visit(alloc: Global, past: bool, writes: bool) -> Result<Visit, NoMemory> {
    let row = if past { None } else { Some(key(alloc, 5)?) };
    Ok(Visit {
        table: 1,
        index: 0,
        place: place(alloc, if past { END } else { 5 })?,
        row,
        past,
        writes,
        scan: 3,
    })
}

#[test]
fn what_a_visit_asks(rt: HostRuntime) -> Result<(), Fail> {
    let cases: [(u8, bool, bool, &[Expected], bool); 10] = [
        (0, false, false, &[], false),
        (0, false, true, &[(Write, 0, 5)], false),
        (0, true, false, &[], false),
        (1, false, false, &[(Read, 0, 5)], true),
        (1, true, false, &[], false),
        (2, false, false, &[(Read, 0, 5)], false),
        (2, false, true, &[(Read, 0, 5), (Write, 0, 5)], false),
        (2, true, false, &[], false),
        (
            3,
            false,
            true,
            &[(Read, 0, 5), (Write, 0, 5), (Phantom, 0, 5)],
            false,
        ),
        (3, true, false, &[(Phantom, 0, END)], false),
    ];
    for (level, past, writes, expected, short) in cases {
        let visit = visit(rt.alloc(), past, writes)?;
        let wants = visit_wants(rt.alloc(), level, &visit)?;
        assert!(rt;
            are(rt.alloc(), &wants, expected, short)?,
            "{level} {past} {writes} {wants:?}"
        );
    }
    Ok(())
}

/// Table 1, of two integers, with the first as its primary key.
fn table(alloc: Global) -> Result<TableDef, Fail> {
    let mut columns = Items::new(alloc);
    for text in ["k", "v"] {
        let name = Name::new(alloc, text)?.ok_or("no name")?;
        columns.push(Column {
            name,
            kind: Kind::Integer,
            nullable: true,
        })?;
    }
    Ok(TableDef {
        number: 1,
        name: Name::new(alloc, "t")?.ok_or("no name")?,
        columns,
        key: Items::from_slice(alloc, &[0])?,
    })
}

fn row(alloc: Global, k: i64, v: i64) -> Result<Row, NoMemory> {
    let mut row = Items::new(alloc);
    row.push(Value::Int(k))?;
    row.push(Value::Int(v))?;
    Ok(row)
}

/// Of row 5: inserted, updated, or deleted.
fn change(alloc: Global, kind: char) -> Result<Change, NoMemory> {
    let before = row(alloc, 5, 3)?;
    match kind {
        'i' => Ok(Change::Insert {
            table: 1,
            row: before,
        }),
        'u' => Ok(Change::Update {
            table: 1,
            before,
            after: row(alloc, 5, 6)?,
        }),
        _ => Ok(Change::Delete { table: 1, before }),
    }
}

/// One spot: its index, the key that is left, the key that is come to, and its successor.
type Keys = (u8, Option<i64>, Option<i64>, i64);

fn some_key(alloc: Global, n: Option<i64>) -> Result<Option<wat_value::Key>, NoMemory> {
    match n {
        None => Ok(None),
        Some(n) => Ok(Some(key(alloc, n)?)),
    }
}

fn spots(alloc: Global, keys: &[Keys], inherits: bool) -> Result<Spots, NoMemory> {
    let mut spots = Items::new(alloc);
    for (index, leaves, enters, successor) in keys {
        spots.push(Spot {
            index: *index,
            leaves: some_key(alloc, *leaves)?,
            enters: some_key(alloc, *enters)?,
            successor: place(alloc, *successor)?,
            inherits,
        })?;
    }
    Ok(spots)
}

/// Whether such a change of row 5 asks those locks.
fn asks(
    alloc: Global,
    kind: char,
    keys: &[Keys],
    inherits: bool,
    expected: &[Expected],
) -> Result<bool, Fail> {
    let spots = spots(alloc, keys, inherits)?;
    let wants = change_wants(alloc, &table(alloc)?, &change(alloc, kind)?, &spots)?;
    Ok(are(alloc, &wants, expected, false)?)
}

#[test]
fn what_a_change_asks(rt: HostRuntime) -> Result<(), Fail> {
    let cases: [(char, &[Keys], bool, &[Expected]); 9] = [
        ('i', &[], false, &[(Write, 0, 5)]),
        (
            'i',
            &[(0, None, Some(5), 8)],
            false,
            &[(Write, 0, 5), (AntiPhantom, 0, 5), (AntiPhantom, 0, 8)],
        ),
        (
            'i',
            &[(0, None, Some(5), END)],
            true,
            &[
                (Write, 0, 5),
                (Phantom, 0, 5),
                (AntiPhantom, 0, 5),
                (AntiPhantom, 0, END),
            ],
        ),
        (
            'd',
            &[(0, Some(5), None, END)],
            false,
            &[(Write, 0, 5), (AntiPhantom, 0, 5)],
        ),
        (
            'd',
            &[(0, Some(5), None, END)],
            true,
            &[(Write, 0, 5), (AntiPhantom, 0, 5)],
        ),
        ('u', &[], false, &[(Write, 0, 5)]),
        (
            'u',
            &[(1, Some(3), Some(6), 8)],
            false,
            &[
                (Write, 0, 5),
                (AntiPhantom, 1, 3),
                (AntiPhantom, 1, 6),
                (AntiPhantom, 1, 8),
            ],
        ),
        (
            'u',
            &[(1, Some(8), Some(6), 8)],
            true,
            &[
                (Write, 0, 5),
                (Phantom, 1, 6),
                (AntiPhantom, 1, 6),
                (AntiPhantom, 1, 8),
            ],
        ),
        (
            'i',
            &[(1, None, Some(3), END), (0, None, Some(5), 8)],
            false,
            &[
                (Write, 0, 5),
                (AntiPhantom, 0, 5),
                (AntiPhantom, 0, 8),
                (AntiPhantom, 1, 3),
                (AntiPhantom, 1, END),
            ],
        ),
    ];
    for (kind, keys, inherits, expected) in cases {
        assert!(rt;
            asks(rt.alloc(), kind, keys, inherits, expected)?,
            "{kind} {keys:?} {inherits}"
        );
    }
    Ok(())
}

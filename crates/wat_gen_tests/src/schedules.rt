//! Texts that are schedules, each with its items, and texts that are none.
use std::test::Fail;
use wat_schedule::{Item, items};

/// A turn to the end of a statement.
fn turn(conn: u16) -> Item {
    Item {
        conn,
        single: false,
    }
}

/// A single step.
fn step(conn: u16) -> Item {
    Item { conn, single: true }
}

#[test]
fn schedules_give_their_items(rt: HostRuntime) -> Result<(), Fail> {
    let cases: [(&str, u16, &[Item]); 6] = [
        ("", 1, &[]),
        ("1 2.", 2, &[turn(1), step(2)]),
        ("2 1 2", 2, &[turn(2), turn(1), turn(2)]),
        ("64. 10", 64, &[step(64), turn(10)]),
        ("65535", 65535, &[turn(65535)]),
        ("1. 1. 1", 1, &[step(1), step(1), turn(1)]),
    ];
    for (text, count, want) in cases {
        let read = items(rt.alloc(), text, count)?.ok_or("no schedule")?;
        assert_eq!(rt; read.as_slice(), want, "{text:?}");
    }
    Ok(())
}

#[test]
fn other_texts_are_no_schedules(rt: HostRuntime) -> Result<(), Fail> {
    let cases = [
        ("01", 2),
        ("0", 2),
        ("3", 2),
        ("65536", 65535),
        ("65537", 1),
        ("+1", 2),
        ("-1", 2),
        ("1 ", 2),
        (" 1", 2),
        ("1  2", 2),
        ("1\n", 2),
        ("1\t2", 2),
        ("1..", 2),
        ("1 .", 2),
        (".1", 2),
        ("one", 2),
        ("1", 0),
    ];
    for (text, count) in cases {
        assert!(rt; items(rt.alloc(), text, count)?.is_none(), "{text:?}");
    }
    Ok(())
}

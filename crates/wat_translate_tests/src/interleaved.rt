// Changes of many connections in one log, some of which are undone.
use crate::databases::{EMPTY, is_read_back, log_after, text_of};
use crate::records::{
    Cell, framed, push_commit, push_delete, push_insert, push_rollback, push_undo_to, push_update,
};
use std::alloc::Global;
use std::test::Fail;

const NOTES: &[u8] = b"CREATE TABLE n (k INTEGER PRIMARY KEY, s VARCHAR(20));";

const NOTES_TEXT: &str = "CREATE TABLE n (k INTEGER NOT NULL, s VARCHAR(20), PRIMARY KEY (k));\n";

const LEAST: i64 = -2147483648;

/// Rows of which one is undone behind a savepoint.
fn first_notes(alloc: Global) -> Result<Vec<u8>, Fail> {
    let mut body = Vec::new(alloc);
    push_insert(&mut body, 1, 1, &[Cell::Int(1), Cell::Text("it's")])?;
    push_insert(&mut body, 1, 1, &[Cell::Int(2), Cell::Text("gone")])?;
    push_undo_to(&mut body, 1, 1)?;
    push_insert(&mut body, 1, 1, &[Cell::Int(LEAST), Cell::Null])?;
    push_commit(&mut body, 1)?;
    Ok(body)
}

/// Rows that are deleted and come back, and one that is changed.
fn later_notes(alloc: Global) -> Result<Vec<u8>, Fail> {
    let mut body = Vec::new(alloc);
    push_delete(&mut body, 1, 1, &[Cell::Int(LEAST), Cell::Null])?;
    push_delete(&mut body, 1, 1, &[Cell::Int(1), Cell::Text("it's")])?;
    push_rollback(&mut body, 1)?;
    let before = [Cell::Int(1), Cell::Text("it's")];
    push_update(&mut body, 1, 1, &before, &[Cell::Int(1), Cell::Text("x")])?;
    push_commit(&mut body, 1)?;
    Ok(body)
}

#[test]
fn undone_changes_are_left_out(rt: HostRuntime) -> Result<(), Fail> {
    let alloc = rt.alloc();
    let created = log_after(alloc, EMPTY, NOTES)?;
    let first = framed(alloc, &created, &first_notes(alloc)?)?;
    let log = framed(alloc, &first, &later_notes(alloc)?)?;
    let text =
        "CREATE TABLE n (k INTEGER NOT NULL, s VARCHAR(20), PRIMARY KEY (k));\nINSERT INTO n VALUES (1, 'it''s');\nINSERT INTO n VALUES (-2147483648, NULL);\nCOMMIT;\nUPDATE n SET s = 'x' WHERE k = 1;\nCOMMIT;\n";
    assert!(rt; is_read_back(alloc, &log, text)?);
    Ok(())
}

/// Two connections make changes in turn, and the second commits first. A third has changes that no commit has yet.
#[test]
fn transactions_stand_in_the_order_of_their_commits(rt: HostRuntime) -> Result<(), Fail> {
    let alloc = rt.alloc();
    let created = log_after(alloc, EMPTY, NOTES)?;
    let mut early = Vec::new(alloc);
    push_insert(&mut early, 1, 1, &[Cell::Int(1), Cell::Null])?;
    push_insert(&mut early, 3, 1, &[Cell::Int(3), Cell::Null])?;
    push_insert(&mut early, 2, 1, &[Cell::Int(2), Cell::Null])?;
    let mut late = Vec::new(alloc);
    push_insert(&mut late, 1, 1, &[Cell::Int(4), Cell::Text("last")])?;
    push_commit(&mut late, 2)?;
    push_commit(&mut late, 1)?;
    push_delete(&mut late, 2, 1, &[Cell::Int(2), Cell::Null])?;
    let first = framed(alloc, &created, &early)?;
    let log = framed(alloc, &first, &late)?;
    let mut text = String::from_str(alloc, NOTES_TEXT)?;
    text.push_str(
        "INSERT INTO n VALUES (2, NULL);\nCOMMIT;\nINSERT INTO n VALUES (1, NULL);\nINSERT INTO n VALUES (4, 'last');\nCOMMIT;\n",
    )?;
    assert!(rt; is_read_back(alloc, &log, text.as_str())?);
    Ok(())
}

/// Of a transaction whose changes were all undone nothing is written; of one whose changes change nothing, its COMMIT is.
#[test]
fn transactions_without_changes_are_left_out(rt: HostRuntime) -> Result<(), Fail> {
    let alloc = rt.alloc();
    let created = log_after(
        alloc,
        EMPTY,
        b"CREATE TABLE t (k INTEGER PRIMARY KEY); INSERT INTO t VALUES (1); COMMIT;",
    )?;
    let text =
        "CREATE TABLE t (k INTEGER NOT NULL, PRIMARY KEY (k));\nINSERT INTO t VALUES (1);\nCOMMIT;\n";
    let mut undone = Vec::new(alloc);
    push_insert(&mut undone, 7, 1, &[Cell::Int(7)])?;
    push_undo_to(&mut undone, 7, 0)?;
    push_commit(&mut undone, 7)?;
    push_commit(&mut undone, 9)?;
    let log = framed(alloc, &created, &undone)?;
    assert!(rt; is_read_back(alloc, &log, text)?);
    let mut same = Vec::new(alloc);
    push_update(&mut same, 7, 1, &[Cell::Int(1)], &[Cell::Int(1)])?;
    push_commit(&mut same, 7)?;
    let longer = framed(alloc, &log, &same)?;
    let mut bare = String::from_str(alloc, text)?;
    bare.push_str("COMMIT;\n")?;
    assert_eq!(rt; text_of(alloc, &longer)?.as_slice(), bare.as_bytes());
    Ok(())
}

ghost use Rattle.wat_log_record.specs.Encoding.{IsWritable};

use crate::entries::{created, deleted, indexed, inserted, updated};
use std::alloc::Global;
use std::test::Fail;
use wat_list::Copied;
use wat_log_record::spelling_laws;
use wat_record::{LogRecord, read_record, write_record};
use wat_value::SchemaChange;

// The table t with its key: the body of the first frame of a log.
const CREATED: &[u8] = &[
    5, 1, 0, 0, 0, 1, 1, 116, 2, 1, 107, 1, 0, 0, 0, 1, 118, 1, 0, 0, 1, 1, 0,
];

// Three rows that connection 1 inserts and commits: the body of the second.
const INSERTED: &[u8] = &[
    1, 0, 1, 1, 0, 0, 0, 1, 0, 2, 1, 0, 0, 0, 0, 0, 0, 0, 1, 1, 0, 0, 0, 0, 0, 0, 0, 10, 1, 0, 1,
    1, 0, 0, 0, 1, 0, 2, 1, 0, 0, 0, 0, 0, 0, 0, 3, 1, 0, 0, 0, 0, 0, 0, 0, 30, 1, 0, 1, 1, 0, 0,
    0, 1, 0, 2, 1, 0, 0, 0, 0, 0, 0, 0, 5, 1, 0, 0, 0, 0, 0, 0, 0, 50, 3, 0, 1,
];

const INDEXED: &[u8] = &[5, 3, 1, 0, 0, 0, 2, 4, 98, 121, 95, 118, 2, 1, 0];

const UPDATED: &[u8] = &[1, 0, 2, 2, 0, 0, 0, 3, 0, 1, 2, 0, 1, 97, 0, 1, 2, 0, 0];

const DELETED: &[u8] = &[1, 255, 255, 3, 0, 0, 1, 0, 0, 1, 0];

#[test]
fn a_table_is_the_body_of_the_first_frame(rt: HostRuntime) -> Result<(), Fail> {
    let mut body = Vec::new(rt.alloc());
    write_record(&created(rt.alloc())?, &mut body)?;
    assert_eq!(rt; body.as_slice(), CREATED);
    Ok(())
}

#[test]
fn three_rows_and_their_commit_are_the_body_of_the_second(rt: HostRuntime) -> Result<(), Fail> {
    let mut body = Vec::new(rt.alloc());
    for (key, value) in [(1, 10), (3, 30), (5, 50)] {
        write_record(&inserted(rt.alloc(), key, value)?, &mut body)?;
    }
    write_record(&LogRecord::Commit { conn: 1 }, &mut body)?;
    assert_eq!(rt; body.as_slice(), INSERTED);
    assert_eq!(rt; body.len(), 87);
    Ok(())
}

// What the record is written as.
fn written(alloc: Global, entry: &LogRecord) -> Result<Vec<u8>, Fail>
    requires { IsWritable entry.now }
{
    let copy = entry.copy(alloc)?;
    let mut bytes = Vec::new(alloc);
    write_record(&copy, &mut bytes)?;
    Ok(bytes)
}

#[test]
fn changes_are_written(rt: HostRuntime) -> Result<(), Fail> {
    let alloc = rt.alloc();
    assert_eq!(rt; written(alloc, &updated(alloc)?)?.as_slice(), UPDATED);
    assert_eq!(rt; written(alloc, &deleted(alloc)?)?.as_slice(), DELETED);
    assert_eq!(rt; written(alloc, &indexed(alloc)?)?.as_slice(), INDEXED);
    Ok(())
}

#[test]
fn records_of_no_change_are_written(rt: HostRuntime) -> Result<(), Fail> {
    let undo = LogRecord::UndoTo {
        conn: 258,
        count: 16_909_060,
    };
    let dropped = LogRecord::Schema(SchemaChange::DropTable { table: 7 });
    let cases: [(LogRecord, &[u8]); 4] = [
        (LogRecord::Commit { conn: 1 }, &[3, 0, 1]),
        (LogRecord::Rollback { conn: 64 }, &[4, 0, 64]),
        (undo, &[2, 1, 2, 1, 2, 3, 4]),
        (dropped, &[5, 2, 0, 0, 0, 7]),
    ];
    for (entry, bytes) in &cases {
        assert_eq!(rt; written(rt.alloc(), entry)?.as_slice(), *bytes);
    }
    Ok(())
}

// How many bytes the record takes that these begin with, where it is written as they are.
fn read_back(alloc: Global, bytes: &[u8]) -> Result<Option<usize>, Fail> {
    spelling_laws();
    let Some((entry, len)) = read_record(alloc, bytes)? else {
        return Ok(None);
    };
    let mut again = Vec::new(alloc);
    write_record(&entry, &mut again)?;
    if bytes.starts_with(&again) && again.len() == len {
        Ok(Some(len))
    } else {
        Err("written otherwise")?
    }
}

#[test]
fn what_is_written_is_read_back(rt: HostRuntime) -> Result<(), Fail> {
    let cases: [(&[u8], usize); 8] = [
        (CREATED, 23),
        (INSERTED, 28),
        (&[3, 0, 1], 3),
        (&[4, 255, 255, 9], 3),
        (&[2, 0, 1, 255, 255, 255, 255], 7),
        (INDEXED, 15),
        (UPDATED, 19),
        (DELETED, 11),
    ];
    for (bytes, len) in cases {
        assert_eq!(rt; read_back(rt.alloc(), bytes)?, Some(len), "{bytes:?}");
    }
    Ok(())
}

#[test]
fn other_bytes_are_no_record(rt: HostRuntime) -> Result<(), Fail> {
    let cases: [&[u8]; 12] = [
        &[],
        &[0, 0, 1],
        &[6, 0, 1],
        &[3, 0],
        &[2, 0, 1, 0, 0, 0],
        &[1, 0, 1, 4, 0, 0, 0, 1, 0, 0],
        &[5, 4, 0, 0, 0, 1],
        // A capital letter, a reserved word, a column of kind 4, an integer with a length, and a byte 2 for NULL.
        &[5, 1, 0, 0, 0, 1, 1, 84, 0, 0],
        &[5, 1, 0, 0, 0, 1, 2, 97, 115, 0, 0],
        &[5, 1, 0, 0, 0, 1, 1, 116, 1, 1, 107, 4, 0, 0, 0, 0],
        &[5, 1, 0, 0, 0, 1, 1, 116, 1, 1, 107, 1, 0, 1, 0, 0],
        &[5, 1, 0, 0, 0, 1, 1, 116, 1, 1, 107, 1, 0, 0, 2, 0],
    ];
    for bytes in cases {
        assert_eq!(rt; read_back(rt.alloc(), bytes)?, None, "{bytes:?}");
    }
    // An index of number 0, and a table that is cut off.
    assert_eq!(rt;
        read_back(rt.alloc(), &[5, 3, 0, 0, 0, 0, 2, 1, 118, 0])?,
        None
    );
    assert_eq!(rt; read_back(rt.alloc(), &CREATED[..22])?, None);
    Ok(())
}

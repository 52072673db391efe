// Logs that are not read back.
use crate::databases::{EMPTY, disk_of, log_after};
use crate::records::{Cell, framed, push_commit, push_insert};
use std::alloc::{AllocError, Global};
use std::test::Fail;
use wat_disk::FileId;
use wat_translate::{LogRefusal, translate};

const FIRST: &[u8] =
    b"CREATE TABLE t (k INTEGER PRIMARY KEY, v INTEGER); INSERT INTO t VALUES (1, 10); INSERT INTO t VALUES (3, 30); INSERT INTO t VALUES (5, 50); COMMIT;";

/// Why a log is not read back, if it isn't.
fn refusal_of(
    alloc: Global,
    main: &[u8],
    log: &[u8],
    fails: Option<u64>,
) -> Result<Option<LogRefusal>, AllocError> {
    let mut disk = disk_of(alloc, main, log, fails)?;
    Ok(translate(alloc, &mut disk).err())
}

fn damaged(at: u64) -> Option<LogRefusal> {
    Some(LogRefusal::Damaged {
        file: FileId(2),
        at,
    })
}

#[test]
fn a_log_that_is_not_there_is_told(rt: HostRuntime) -> Result<(), Fail> {
    let alloc = rt.alloc();
    assert_eq!(rt;
        refusal_of(alloc, b"", b"", None)?,
        Some(LogRefusal::NoDatabase)
    );
    assert_eq!(rt; refusal_of(alloc, b"x", b"", None)?, damaged(0));
    assert_eq!(rt; refusal_of(alloc, b"", EMPTY, None)?, None);
    Ok(())
}

#[test]
fn damage_is_told_at_its_gate(rt: HostRuntime) -> Result<(), Fail> {
    let alloc = rt.alloc();
    let log = log_after(alloc, EMPTY, FIRST)?;
    assert_eq!(rt; log.len(), 121);
    let (cut, _) = log.as_slice().split_at(100.min(log.len()));
    assert_eq!(rt; refusal_of(alloc, b"", cut, None)?, damaged(28));
    // A key that stands, a table that doesn't, and bytes that are no record.
    for (table, key) in [(1, 3), (2, 7)] {
        let mut body = Vec::new(alloc);
        push_insert(&mut body, 1, 1, &[Cell::Int(6), Cell::Null])?;
        push_insert(&mut body, 1, table, &[Cell::Int(key), Cell::Null])?;
        push_commit(&mut body, 1)?;
        let longer = framed(alloc, &log, &body)?;
        assert_eq!(rt; refusal_of(alloc, b"", &longer, None)?, damaged(120));
    }
    let other = framed(alloc, &log, &[3, 0, 1, 0xFF])?;
    assert_eq!(rt; refusal_of(alloc, b"", &other, None)?, damaged(120));
    Ok(())
}

/// Each call on the disk may fail.
#[test]
fn a_fault_of_the_disk_is_told(rt: HostRuntime) -> Result<(), Fail> {
    let alloc = rt.alloc();
    let log = log_after(alloc, EMPTY, FIRST)?;
    for call in [0, 1, 2, 3, 4, 5, 6, 7, 8, 9, 10, 11, 12, 13] {
        assert_eq!(rt;
            refusal_of(alloc, b"", &log, Some(call))?,
            Some(LogRefusal::DiskFault),
            "{call}"
        );
    }
    assert_eq!(rt; refusal_of(alloc, b"", &log, Some(99))?, None);
    Ok(())
}

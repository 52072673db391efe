// Making a database.
use crate::calls::{call_on, disk_of, has_log, over};
use std::alloc::{AllocError, Global};
use std::test::Fail;
use wat_commit_log::{InitRefusal, init};
use wat_disk::{Disk, MemoryDisk, Pick};

/// What making a database answers over this log, and the disk after it.
fn made(
    alloc: Global,
    log: &[u8],
    fails: Option<u64>,
) -> Result<(MemoryDisk, Result<(), InitRefusal>), AllocError> {
    let mut disk = disk_of(alloc, log, fails)?;
    let answer = init(&mut disk);
    Ok((disk, answer))
}

#[test]
fn a_database_is_made_where_none_is(rt: HostRuntime) -> Result<(), Fail> {
    let none: &[u8] = &[];
    let new: &[u8] = &[0];
    let exists = Err(InitRefusal::Exists);
    let fault = Err(InitRefusal::DiskFault);
    // A length, a write and a sync, or a length alone.
    for (log, fails, answer, calls, left) in [
        (none, None, Ok(()), 3, new),
        (new, None, exists, 1, new),
        (&[0xa5], None, exists, 1, &[0xa5]),
        (&[7, 0, 0], None, exists, 1, &[7, 0, 0]),
        (none, Some(0), fault, 1, none),
        (none, Some(1), fault, 2, none),
        (none, Some(2), fault, 3, new),
    ] {
        let (mut disk, found) = made(rt.alloc(), log, fails)?;
        assert!(rt; found == answer, "{log:?}");
        assert_eq!(rt; disk.moment(), calls);
        assert!(rt; has_log(rt.alloc(), &mut disk, left)?, "{log:?}");
    }
    Ok(())
}

/// The length is told by moment 1, the gate is written by 2 and synced by 3: from then on it stands, whatever a stop picks.
#[test]
fn a_stop_leaves_no_database_or_an_empty_one(rt: HostRuntime) -> Result<(), Fail> {
    let stops: [(u64, Pick, &[u8]); 8] = [
        (0, Pick::New, &[]),
        (1, Pick::Torn(0xa5), &[]),
        (2, Pick::Old, &[]),
        (2, Pick::New, &[0]),
        (2, Pick::Torn(0xa5), &[0xa5]),
        (3, Pick::Old, &[0]),
        (3, Pick::New, &[0]),
        (3, Pick::Torn(0xa5), &[0]),
    ];
    for (moment, pick, log) in stops {
        let (disk, _) = made(rt.alloc(), &[], None)?;
        let reached = moment.min(disk.moment());
        let mut left = disk.after_stop(rt.alloc(), reached, pick)?;
        assert!(rt; has_log(rt.alloc(), &mut left, log)?, "{moment} {pick:?}");
    }
    Ok(())
}

/// `init`, `init` again, and a script over what was made.
#[test]
fn a_database_is_made_once_and_then_run_over(rt: HostRuntime) -> Result<(), Fail> {
    let around = over(&[], b"CREATE TABLE t (k INTEGER PRIMARY KEY);");
    let mut disk = disk_of(rt.alloc(), &[], None)?;
    for (line, status, text) in [
        ("init", 0, ""),
        ("init", 3, "watsql: a database is here\n"),
        ("run a.sql", 0, "connection 1\n1: created 1\ncommits 1\n"),
        (
            "run a.sql",
            0,
            "connection 1\n1: error TableExists t\ncommits 0\n",
        ),
    ] {
        let (finish, wrote) = call_on(rt.alloc(), line, &around, disk, text.as_bytes())?;
        assert!(rt; wrote, "{text}");
        assert_eq!(rt; finish.status, status, "{text}");
        disk = finish.disk;
    }
    Ok(())
}

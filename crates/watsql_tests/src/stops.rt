// What stops leave, and a call over it.
use crate::calls::{played, scripts_of, sink_of, words_of};
use std::alloc::{AllocError, Global};
use std::sync::Wait;
use std::test::Fail;
use std::thread::Threads;
use wat_disk::{Disk, MemoryDisk, Pick};
use wat_io::FreeGate;
use wat_tool::{Finish, run};

/// A table, rows, an UPDATE with a DELETE, a transaction that is rolled back, and a row.
const STEPS: &str =
    "CREATE TABLE t (k INTEGER PRIMARY KEY, v INTEGER); INSERT INTO t VALUES (1, 10); INSERT INTO t VALUES (2, 20); COMMIT; UPDATE t SET v = v + 1 WHERE k = 1; DELETE FROM t WHERE k = 2; COMMIT; INSERT INTO t VALUES (3, 30); DELETE FROM t WHERE k = 1; ROLLBACK; INSERT INTO t VALUES (4, 40); COMMIT;";

/// The texts of SELECT after no commit, the CREATE, and each COMMIT.
const SELECTED: [&str; 5] = [
    "connection 1\n1: error NoTable t\ncommits 0\n",
    "connection 1\n1: rows 0\ncommits 0\n",
    "connection 1\n1: rows 2\n(1, 10)\n(2, 20)\ncommits 0\n",
    "connection 1\n1: rows 1\n(1, 11)\ncommits 0\n",
    "connection 1\n1: rows 2\n(1, 11)\n(4, 40)\ncommits 0\n",
];

const PICKS: [Pick; 4] = [Pick::Old, Pick::New, Pick::Torn(0), Pick::Torn(0xa5)];

/// How many commits this text shows; 5 where it shows none of these.
fn commits_in(status: u8, text: &[u8]) -> usize {
    for (count, selected) in SELECTED.iter().enumerate() {
        if status == 0 && text == selected.as_bytes() {
            return count;
        }
    }
    SELECTED.len()
}

/// How many commits a SELECT over this disk shows, and the disk after it.
fn commits_on<R: Threads + Wait + Sync>(
    rt: &R,
    alloc: Global,
    disk: MemoryDisk,
) -> Result<(MemoryDisk, usize), AllocError> {
    let words = words_of(alloc, "run a.sql")?;
    let mut scripts = scripts_of(alloc, b"SELECT * FROM t;", None)?;
    let mut sink = sink_of(alloc, 4096, None)?;
    let finish = run(rt, alloc, &words, &mut scripts, disk, &FreeGate, &mut sink);
    Ok((finish.disk, commits_in(finish.status, sink.bytes())))
}

/// What a stop at this moment leaves of the disk, with the commits that are shown over it.
fn left<R: Threads + Wait + Sync>(
    rt: &R,
    alloc: Global,
    disk: &MemoryDisk,
    moment: u64,
    pick: Pick,
) -> Result<(MemoryDisk, usize), AllocError> {
    let reached = moment.min(disk.moment());
    commits_on(rt, alloc, disk.after_stop(alloc, reached, pick)?)
}

/// How many commits were acknowledged up to this moment, and how many with the one that may have been under way.
fn acknowledged(moments: &[u64], moment: u64) -> (usize, usize) {
    let least = moments.iter().filter(|m| **m <= moment).count();
    let before = moments.iter().filter(|m| **m < moment).count();
    (least, moments.len().min(before.saturating_add(1)))
}

/// Whether each stop of the call that opened the disk leaves so many commits.
fn keeps<R: Threads + Wait + Sync>(
    rt: &R,
    alloc: Global,
    opened: &MemoryDisk,
    pick: Pick,
    commits: usize,
) -> Result<bool, AllocError> {
    for moment in 0..opened.moment().saturating_add(1) {
        let (_, kept) = left(rt, alloc, opened, moment, pick)?;
        if kept != commits {
            return Ok(false);
        }
    }
    Ok(true)
}

/// Whether a stop at this moment, and each stop of the call that opens it again, leaves as many commits as it may.
fn is_kept<R: Threads + Wait + Sync>(
    rt: &R,
    alloc: Global,
    finish: &Finish<MemoryDisk>,
    moment: u64,
    pick: Pick,
) -> Result<bool, AllocError> {
    let (least, most) = acknowledged(finish.session.moments.as_slice(), moment);
    let (opened, commits) = left(rt, alloc, &finish.disk, moment, pick)?;
    Ok(least <= commits && commits <= most && keeps(rt, alloc, &opened, pick, commits)?)
}

#[test]
fn a_stop_keeps_a_database_that_was_made(rt: HostRuntime) -> Result<(), Fail> {
    let made = played(rt.alloc(), "init", &[], "")?;
    assert_eq!(rt; made.status, 0);
    for pick in PICKS {
        assert!(rt;
            is_kept(&rt, rt.alloc(), &made, made.disk.moment(), pick)?,
            "{pick:?}"
        );
    }
    Ok(())
}

#[test]
fn a_stop_keeps_each_acknowledged_commit(rt: HostRuntime) -> Result<(), Fail> {
    let finish = played(rt.alloc(), "run a.sql", &[0], STEPS)?;
    assert_eq!(rt; finish.status, 0);
    for moment in 0..finish.disk.moment().saturating_add(1) {
        for pick in PICKS {
            assert!(rt;
                is_kept(&rt, rt.alloc(), &finish, moment, pick)?,
                "{moment} {pick:?}"
            );
        }
    }
    Ok(())
}

/// The moments of the commits are those after their last calls: an opening makes three, and each commit four.
#[test]
fn each_commit_has_its_moment(rt: HostRuntime) -> Result<(), Fail> {
    let finish = played(rt.alloc(), "run a.sql", &[0], STEPS)?;
    assert_eq!(rt;
        finish.session.moments.as_slice(),
        [7, 11, 15, 19].as_slice()
    );
    assert_eq!(rt; finish.disk.moment(), 19);
    Ok(())
}

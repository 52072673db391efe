// Each call on the disk fails in turn.
use crate::calls::{Around, FIRST, FIRST_LOG, call, call_on, disk_of, is_answered, over};
use std::alloc::{AllocError, Global};
use std::test::Fail;
use wat_conn::Reason;
use wat_disk::Disk;

const NO_DISK: &str = "watsql: disk fault\n";

/// The table is not made, and nothing after it is answered.
const AT_CREATE: &str =
    "connection 1\n1: stopped: disk fault\n2: stopped: disk fault\n3: stopped: disk fault\n4: stopped: disk fault\n5: stopped: disk fault\n6: stopped: disk fault\ncommits 0\nstopped: disk fault\n";

const AT_COMMIT: &str =
    "connection 1\n1: created 1\n2: inserted 1\n3: inserted 1\n4: inserted 1\n5: rows 3\n(1, 10)\n(3, 30)\n(5, 50)\n6: stopped: disk fault\ncommits 1\nstopped: disk fault\n";

const QUIET: &str =
    "UPDATE t SET v = 0 WHERE k = 2; COMMIT; ROLLBACK; DELETE FROM t; ROLLBACK; SELECT * FROM t; COMMIT";

const LATE: &str = "COMMIT; DELETE FROM t WHERE k = 1; COMMIT; SELECT * FROM t";

const LATE_FAULT: &str =
    "connection 1\n1: nothing to commit\n2: deleted 1\n3: stopped: disk fault\n4: stopped: disk fault\ncommits 0\nstopped: disk fault\n";

/// How many calls on the disk a run makes.
fn calls_of(alloc: Global, around: &Around) -> Result<u64, AllocError> {
    let (disk, _) = call(alloc, "run a.sql", around, 0, b"")?;
    Ok(disk.moment())
}

/// The calls of an opening are three, and six more for each frame; a commit with changes makes four, and one without makes none.
#[test]
fn calls_on_the_disk_are_counted(rt: HostRuntime) -> Result<(), Fail> {
    let empty: &[u8] = &[0];
    let first: &[u8] = &FIRST_LOG;
    for (log, script, calls) in [
        (empty, "", 3),
        (first, "", 15),
        (empty, FIRST, 11),
        (first, QUIET, 15),
        (first, LATE, 19),
    ] {
        assert_eq!(rt;
            calls_of(rt.alloc(), &over(log, script.as_bytes()))?,
            calls,
            "{script}"
        );
    }
    Ok(())
}

#[test]
fn each_disk_call_may_fail(rt: HostRuntime) -> Result<(), Fail> {
    // The last calls are those of the CREATE and of the COMMIT: a write and a sync of the frame, and of its gate.
    let empty: &[u8] = &[0];
    for (from, to, text) in [(0, 3, NO_DISK), (3, 7, AT_CREATE), (7, 11, AT_COMMIT)] {
        for moment in from..to {
            let around = Around {
                disk: Some(moment),
                ..over(empty, FIRST.as_bytes())
            };
            assert!(rt;
                is_answered(rt.alloc(), "run a.sql", &around, 4, text.as_bytes())?,
                "{moment}"
            );
        }
    }
    for moment in 0..15 {
        let around = Around {
            disk: Some(moment),
            ..over(&FIRST_LOG, LATE.as_bytes())
        };
        assert!(rt;
            is_answered(rt.alloc(), "run a.sql", &around, 4, NO_DISK.as_bytes())?,
            "{moment}"
        );
    }
    Ok(())
}

/// After the fault no call is made, and the commit has no moment.
#[test]
fn a_stop_makes_no_call(rt: HostRuntime) -> Result<(), Fail> {
    for (fails, moment) in [(15, 16), (16, 17), (17, 18), (18, 19)] {
        let around = over(&FIRST_LOG, LATE.as_bytes());
        let disk = disk_of(rt.alloc(), &FIRST_LOG, Some(fails))?;
        let (finish, wrote) = call_on(
            rt.alloc(),
            "run a.sql",
            &around,
            disk,
            LATE_FAULT.as_bytes(),
        )?;
        assert!(rt; wrote, "{fails}");
        assert_eq!(rt; finish.session.stop, Some(Reason::DiskFault));
        assert!(rt; finish.session.moments.is_empty());
        assert_eq!(rt; finish.disk.moment(), moment);
    }
    Ok(())
}

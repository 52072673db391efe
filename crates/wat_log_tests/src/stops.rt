// What a stop at any moment leaves of the log, and a fault at any call.
ghost use Rattle.std.specs.Prelude.{◌≤◌};

use crate::entries::Entry;
use crate::steps::{Refused, Step, disk_of, play, read_back};
use std::alloc::Global;
use std::test::Fail;
use wat_disk::{Disk, MemoryDisk, Pick};

const PICKS: [Pick; 4] = [Pick::Old, Pick::New, Pick::Torn(0), Pick::Torn(0xa5)];

// A flush of one record, and a commit of three; the calls of each begin after two of the opening.
const STEPS: [Step; 6] = [
    Step::Note(Entry::Created),
    Step::Flush,
    Step::Note(Entry::Inserted { key: 1, value: 10 }),
    Step::Note(Entry::UndoTo { count: 0 }),
    Step::Commit { conn: 3 },
    Step::Note(Entry::Rollback { conn: 4 }),
];

// How many records were read, all of them the first that were noted.
fn count_of(read: Result<Vec<(char, u16)>, Refused>) -> Option<usize> {
    let all = [('s', 0), ('c', 1), ('u', 1), ('k', 3)];
    match read {
        Ok(read) => {
            if all.starts_with(&read) {
                Some(read.len())
            } else {
                None
            }
        }
        Err(_) => None,
    }
}

fn left(alloc: Global, disk: &MemoryDisk, moment: u64, pick: Pick) -> Result<Option<usize>, Fail> {
    let mut after = disk.after_stop(alloc, moment.min(disk.moment()), pick)?;
    Ok(count_of(read_back(alloc, &mut after)))
}

// The flush is moments 3 to 6, and the commit 7 to 10: a frame is there at the earliest once its gate is written.
#[test]
fn a_stop_leaves_the_first_records(rt: HostRuntime) -> Result<(), Fail> {
    let mut disk = disk_of(rt.alloc(), &[0], 1000, &[])?;
    play(rt.alloc(), &mut disk, &STEPS).ok().ok_or("play")?;
    assert_eq!(rt; disk.moment(), 10);
    for (moment, fewest, most) in [
        (0, 0, 0),
        (2, 0, 0),
        (3, 0, 0),
        (4, 0, 0),
        (5, 0, 1),
        (6, 1, 1),
        (7, 1, 1),
        (8, 1, 1),
        (9, 1, 4),
        (10, 4, 4),
    ] {
        for pick in PICKS {
            let count = left(rt.alloc(), &disk, moment, pick)?;
            assert!(rt;
                count == Some(fewest) || count == Some(most),
                "{pick:?} at {moment}"
            );
        }
    }
    Ok(())
}

// A commit whose second sync fails may be there or not; else a fault leaves what was flushed before.
#[test]
fn a_fault_is_answered_and_leaves_the_first_records(rt: HostRuntime) -> Result<(), Fail> {
    for (moment, want) in [
        (0, 0),
        (1, 0),
        (2, 0),
        (3, 0),
        (4, 0),
        (5, 1),
        (6, 1),
        (7, 1),
        (8, 1),
        (9, 4),
    ] {
        let mut disk = disk_of(rt.alloc(), &[0], 1000, &[moment])?;
        let played = play(rt.alloc(), &mut disk, &STEPS);
        assert_eq!(rt; played, Err(Refused::DiskFault), "{moment}");
        let read = count_of(read_back(rt.alloc(), &mut disk));
        assert_eq!(rt; read, Some(want), "{moment}");
    }
    Ok(())
}

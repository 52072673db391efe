// The bytes of a log, as they are worked out by hand, and the calls that write them.
ghost use Rattle.std.specs.Prelude.{◌≤◌};

use crate::entries::Entry;
use crate::steps::{Refused, Step, disk_of, play, read_back};
use std::alloc::Global;
use std::test::Fail;
use wat_disk::{Deed, Disk, MemoryDisk};
use wat_log::{LOG, Log};

// A table is made; three rows are put into it and committed.
const STEPS: [Step; 6] = [
    Step::Note(Entry::Created),
    Step::Flush,
    Step::Note(Entry::Inserted { key: 1, value: 10 }),
    Step::Note(Entry::Inserted { key: 3, value: 30 }),
    Step::Note(Entry::Inserted { key: 5, value: 50 }),
    Step::Commit { conn: 1 },
];

// The frame of the table, and that of the rows with their commit: gates stand at 0, 28 and 120.
const BYTES: [u8; 121] = [
    0xa5, 0, 0, 0, 23, 5, 1, 0, 0, 0, 1, 1, 116, 2, 1, 107, 1, 0, 0, 0, 1, 118, 1, 0, 0, 1, 1, 0,
    0xa5, 0, 0, 0, 87, 1, 0, 1, 1, 0, 0, 0, 1, 0, 2, 1, 0, 0, 0, 0, 0, 0, 0, 1, 1, 0, 0, 0, 0, 0,
    0, 0, 10, 1, 0, 1, 1, 0, 0, 0, 1, 0, 2, 1, 0, 0, 0, 0, 0, 0, 0, 3, 1, 0, 0, 0, 0, 0, 0, 0, 30,
    1, 0, 1, 1, 0, 0, 0, 1, 0, 2, 1, 0, 0, 0, 0, 0, 0, 0, 5, 1, 0, 0, 0, 0, 0, 0, 0, 50, 3, 0, 1,
    0,
];

fn held<D: Disk>(alloc: Global, disk: &mut D) -> Result<Vec<u8>, Fail> {
    let length = disk.length(LOG)?;
    let mut bytes = vec![in alloc; 0; length as usize]?;
    disk.read(LOG, 0, bytes.as_mut_slice())?;
    Ok(bytes)
}

#[test]
fn a_commit_is_one_frame_with_the_records_before_it(rt: HostRuntime) -> Result<(), Fail> {
    let mut disk = disk_of(rt.alloc(), &[0], 1000, &[])?;
    play(rt.alloc(), &mut disk, &STEPS).ok().ok_or("play")?;
    let bytes = held(rt.alloc(), &mut disk)?;
    assert_eq!(rt; bytes.as_slice(), BYTES.as_slice());
    Ok(())
}

#[test]
fn what_is_noted_is_read_back_in_order(rt: HostRuntime) -> Result<(), Fail> {
    let mut disk = disk_of(rt.alloc(), &[0], 1000, &[])?;
    play(rt.alloc(), &mut disk, &STEPS).ok().ok_or("play")?;
    let read = read_back(rt.alloc(), &mut disk).ok().ok_or("read")?;
    let want = [('s', 0), ('c', 1), ('c', 1), ('c', 1), ('k', 1)];
    assert_eq!(rt; read.as_slice(), want.as_slice());
    Ok(())
}

// The places of gates 0, 1 and 2, and past them none.
fn places<D: Disk>(alloc: Global, disk: &mut D) -> Result<[u64; 3], Refused> {
    let log = Log::open(alloc, disk)?;
    if log.frames() != 2 {
        return Err(Refused::Other);
    }
    Ok([
        log.place(disk, 0)?,
        log.place(disk, 1)?,
        log.place(disk, 2)?,
    ])
}

#[test]
fn gates_have_their_places(rt: HostRuntime) -> Result<(), Fail> {
    let mut disk = disk_of(rt.alloc(), &[0], 1000, &[])?;
    play(rt.alloc(), &mut disk, &STEPS).ok().ok_or("play")?;
    let places = places(rt.alloc(), &mut disk).ok().ok_or("places")?;
    assert_eq!(rt; places, [0, 28, 120]);
    Ok(())
}

// The writes and syncs of the log, in order; of another file none.
fn deeds(alloc: Global, disk: &MemoryDisk) -> Result<Vec<char>, Fail> {
    let mut deeds = Vec::new(alloc);
    for entry in disk.calls() {
        let letter = match entry.deed {
            Deed::Write { .. } => 'w',
            Deed::Sync => 's',
        };
        deeds.push(if entry.file == LOG.0 { letter } else { '?' })?;
    }
    Ok(deeds)
}

// Opening makes two calls and two for a frame. Notes make none.
#[test]
fn a_commit_makes_two_writes_and_two_syncs(rt: HostRuntime) -> Result<(), Fail> {
    let row = Step::Note(Entry::Inserted { key: 1, value: 10 });
    let cases: [(&[Step], usize, u64); 5] = [
        (&[], 0, 2),
        (&[Step::Flush, Step::Flush], 0, 2),
        (&[row, row, row], 0, 2),
        (&[row, row, Step::Commit { conn: 1 }], 1, 6),
        (
            &[row, Step::Flush, Step::Flush, Step::Commit { conn: 7 }],
            2,
            10,
        ),
    ];
    for (steps, frames, moment) in cases {
        let mut disk = disk_of(rt.alloc(), &[0], 1000, &[])?;
        play(rt.alloc(), &mut disk, steps).ok().ok_or("play")?;
        assert_eq!(rt; disk.moment(), moment, "{steps:?}");
        let made = deeds(rt.alloc(), &disk)?;
        let want = ['w', 's', 'w', 's', 'w', 's', 'w', 's'];
        assert_eq!(rt; made.as_slice(), &want[..4 * frames], "{steps:?}");
    }
    Ok(())
}

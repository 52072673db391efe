// What a stop leaves of a disk in memory.
use crate::calls::{Call, answer, one_two_three};
use std::test::Fail;
use wat_disk::{Disk, FileId, MemoryDisk, Pick};

// Call by call: 1 writes, 2 syncs, 3 and 4 write one byte twice, 5 writes past the end.
fn written(rt: &HostRuntime) -> Result<MemoryDisk, Fail> {
    let mut disk = one_two_three(rt, 20, &[])?;
    let four: &[u8] = &[7, 8, 9, 10];
    let first: &[u8] = &[20];
    let second: &[u8] = &[21];
    let last: &[u8] = &[30];
    for call in [
        Call::Write { at: 1, bytes: four },
        Call::Sync,
        Call::Write {
            at: 2,
            bytes: first,
        },
        Call::Write {
            at: 2,
            bytes: second,
        },
        Call::Write { at: 7, bytes: last },
    ] {
        answer(&mut disk, 0, call)?;
    }
    Ok(disk)
}

// What file 0 holds after a stop.
fn left(rt: &HostRuntime, disk: &MemoryDisk, moment: u64, pick: Pick) -> Result<Vec<u8>, Fail> {
    let reached = moment.min(disk.moment());
    let mut stopped = disk.after_stop(rt.alloc(), reached, pick)?;
    let length = stopped.length(FileId(0))?;
    let mut held = vec![in rt.alloc(); 0; length as usize]?;
    stopped.read(FileId(0), 0, held.as_mut_slice())?;
    Ok(held)
}

#[test]
fn a_stop_leaves_what_is_picked(rt: HostRuntime) -> Result<(), Fail> {
    let disk = written(&rt)?;
    for (moment, pick, want) in [
        (0, Pick::New, [1, 2, 3].as_slice()),
        (1, Pick::Old, [1, 2, 3].as_slice()),
        (1, Pick::New, [1, 7, 8, 9, 10].as_slice()),
        (1, Pick::Torn(5), [1, 5, 5, 5, 5].as_slice()),
        (2, Pick::Old, [1, 7, 8, 9, 10].as_slice()),
        (2, Pick::Torn(5), [1, 7, 8, 9, 10].as_slice()),
        (4, Pick::New, [1, 7, 21, 9, 10].as_slice()),
        (5, Pick::Old, [1, 7, 8, 9, 10].as_slice()),
        (5, Pick::New, [1, 7, 21, 9, 10, 0, 0, 30].as_slice()),
        (
            5,
            Pick::Torn(238),
            [1, 7, 238, 9, 10, 238, 238, 238].as_slice(),
        ),
    ] {
        let held = left(&rt, &disk, moment, pick)?;
        assert_eq!(rt; held.as_slice(), want, "{pick:?} at {moment}");
    }
    Ok(())
}

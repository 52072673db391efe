// What a stop at any moment of a checkpoint leaves, and the calls of one.
use crate::files::{Filled, Told, disk_of, main_of};
use crate::steps::{Seen, Step, play, seen_on};
use std::alloc::Global;
use std::test::Fail;
use wat_disk::{Deed, Disk, MemoryDisk, Pick};
use wat_pages::PageRefusal;

const PICKS: [Pick; 4] = [Pick::Old, Pick::New, Pick::Torn(0), Pick::Torn(0xa5)];

// Four pages behind the header, of which the last is free.
const OLD: Seen = Seen {
    count: 5,
    first_free: 4,
    bytes: [0, 0x10, 0x20, 0x30, 4, 0, 0, 0],
};

// Page 1 is changed, 4 is taken and written, 5 is new, 2 is free.
const STEPS: [Step; 7] = [
    Step::Write {
        page: 1,
        byte: 0x11,
    },
    Step::New,
    Step::Write {
        page: 4,
        byte: 0x44,
    },
    Step::New,
    Step::Write {
        page: 5,
        byte: 0x55,
    },
    Step::Free { page: 2 },
    Step::Checkpoint,
];

const NEW: Seen = Seen {
    count: 6,
    first_free: 2,
    bytes: [0, 0x11, 4, 0x30, 0x44, 0x55, 0, 0],
};

fn start(alloc: Global) -> Result<MemoryDisk, Fail> {
    let told = Told {
        limit: 20,
        count: 5,
        first_free: 4,
    };
    let pages = [
        Filled::With(0x10),
        Filled::With(0x20),
        Filled::With(0x30),
        Filled::Free { next: 0 },
    ];
    disk_of(alloc, main_of(alloc, told, &pages)?, &[0], 60_000)
}

fn stopped(
    alloc: Global,
    disk: &MemoryDisk,
    moment: u64,
    pick: Pick,
) -> Result<MemoryDisk, PageRefusal> {
    Ok(disk.after_stop(alloc, moment.min(disk.moment()), pick)?)
}

// What the pages hold that a stop leaves.
fn left(alloc: Global, disk: &MemoryDisk, moment: u64, pick: Pick) -> Result<Seen, PageRefusal> {
    let mut after = stopped(alloc, disk, moment, pick)?;
    seen_on(alloc, &mut after)
}

// Whether a stop at each moment of the reopening, which makes a checkpoint, leaves what the first stop left.
fn stays(alloc: Global, mut disk: MemoryDisk, pick: Pick, was: Seen) -> Result<bool, PageRefusal> {
    play(alloc, &mut disk, &[Step::Checkpoint])?;
    for moment in 0..disk.moment().saturating_add(1) {
        if left(alloc, &disk, moment, pick)? != was {
            return Ok(false);
        }
    }
    Ok(true)
}

// What a stop leaves, if the stops of the reopening leave it too.
fn kept(
    alloc: Global,
    disk: &MemoryDisk,
    moment: u64,
    pick: Pick,
) -> Result<Option<Seen>, PageRefusal> {
    let was = left(alloc, disk, moment, pick)?;
    if stays(alloc, stopped(alloc, disk, moment, pick)?, pick, was)? {
        Ok(Some(was))
    } else {
        Ok(None)
    }
}

#[test]
fn a_checkpoint_is_whole_at_every_stop(rt: HostRuntime) -> Result<(), Fail> {
    let mut disk = start(rt.alloc())?;
    play(rt.alloc(), &mut disk, &STEPS).ok().ok_or("play")?;
    let last = disk.moment();
    for moment in 0..last.saturating_add(1) {
        for pick in PICKS {
            let was = kept(rt.alloc(), &disk, moment, pick).ok().ok_or("kept")?;
            assert!(rt;
                was == Some(OLD) || was == Some(NEW),
                "{pick:?} at {moment}"
            );
            assert!(rt; moment < last || was == Some(NEW), "{pick:?} at the end");
        }
    }
    Ok(())
}

// The files of the writes and syncs, in order; a sync has 8 more.
fn deeds(alloc: Global, disk: &MemoryDisk) -> Result<Vec<u8>, Fail> {
    let mut files = Vec::new(alloc);
    for entry in disk.calls() {
        files.push(match entry.deed {
            Deed::Write { .. } => entry.file.min(7),
            Deed::Sync => entry.file.min(7) + 8,
        })?;
    }
    Ok(files)
}

// The images and their gate, each synced; four pages and the header, synced; the gate that is closed, synced.
#[test]
fn a_checkpoint_makes_its_calls_in_order(rt: HostRuntime) -> Result<(), Fail> {
    let mut disk = start(rt.alloc())?;
    play(rt.alloc(), &mut disk, &STEPS).ok().ok_or("play")?;
    let made = deeds(rt.alloc(), &disk)?;
    assert_eq!(rt;
        made.as_slice(),
        [1, 9, 1, 9, 0, 0, 0, 0, 0, 8, 1, 9].as_slice()
    );
    Ok(())
}

// A read gives the last write, before the checkpoint and after it.
#[test]
fn what_is_written_is_read(rt: HostRuntime) -> Result<(), Fail> {
    let mut disk = start(rt.alloc())?;
    let first = seen_on(rt.alloc(), &mut disk).ok().ok_or("seen")?;
    assert_eq!(rt; first, OLD);
    play(rt.alloc(), &mut disk, &STEPS).ok().ok_or("play")?;
    let last = seen_on(rt.alloc(), &mut disk).ok().ok_or("seen")?;
    assert_eq!(rt; last, NEW);
    Ok(())
}

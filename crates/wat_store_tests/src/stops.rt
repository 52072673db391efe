// What a stop or a fault leaves, and the opening behind it.
use crate::calls::{Played, Refused, make_and_play};
use crate::script::{CALLS, COMMITS, is_left, reached};
use crate::seen::{Seen, seen_on};
use std::alloc::Global;
use std::test::Fail;
use wat_disk::{Disk, FileId, MemoryDisk, Pick};

const PICKS: [Pick; 4] = [Pick::Old, Pick::New, Pick::Torn(0), Pick::Torn(0xa5)];

// Within the making, a checkpoint and a commit, and at the end.
const STOPS: [u64; 5] = [8, 34, 40, 45, 59];

const WHOLE: Played = Played {
    answered: 20,
    refused: None,
};

// The moments at which a database is made and at which something is committed.
fn ends(alloc: Global) -> Result<Vec<u64>, Fail> {
    let mut ends = Vec::from_slice(alloc, &[9])?;
    for calls in COMMITS {
        if calls > 0 && calls <= CALLS.len() {
            let (disk, _) = make_and_play(alloc, &[], &CALLS[..calls])?;
            ends.push(disk.moment())?;
        }
    }
    Ok(ends)
}

fn stopped(
    alloc: Global,
    disk: &MemoryDisk,
    moment: u64,
    pick: Pick,
) -> Result<MemoryDisk, Refused> {
    Ok(disk.after_stop(alloc, moment.min(disk.moment()), pick)?)
}

// What a stop leaves.
fn left(
    alloc: Global,
    disk: &MemoryDisk,
    moment: u64,
    pick: Pick,
) -> Result<Option<Seen>, Refused> {
    seen_on(alloc, stopped(alloc, disk, moment, pick)?).1
}

#[test]
fn a_stop_leaves_what_was_committed(rt: HostRuntime) -> Result<(), Fail> {
    let (disk, played) = make_and_play(rt.alloc(), &[], &CALLS)?;
    assert_eq!(rt; played, Some(WHOLE));
    let ends = ends(rt.alloc())?;
    for moment in 0..disk.moment().saturating_add(1) {
        let reached = ends.iter().filter(|end| **end <= moment).count();
        for pick in PICKS {
            let seen = left(rt.alloc(), &disk, moment, pick);
            assert!(rt;
                seen.is_ok_and(|seen| is_left(seen, reached)),
                "{pick:?} at {moment}: {seen:?}"
            );
        }
    }
    Ok(())
}

// Whether a stop at any write or sync of the opening behind a stop leaves what the opening shows.
fn stays(alloc: Global, disk: &MemoryDisk, moment: u64) -> Result<bool, Refused> {
    let (opened, seen) = seen_on(alloc, stopped(alloc, disk, moment, Pick::Torn(0xa5))?);
    let seen = seen?;
    for entry in opened.calls() {
        for pick in PICKS {
            if left(alloc, &opened, entry.moment, pick)? != seen {
                return Ok(false);
            }
        }
    }
    Ok(true)
}

// Behind stops within the making, the checkpoint and a commit, and at the end.
#[test]
fn a_stop_of_an_opening_leaves_the_same(rt: HostRuntime) -> Result<(), Fail> {
    let (disk, _) = make_and_play(rt.alloc(), &[], &CALLS)?;
    for moment in STOPS {
        let stays = stays(rt.alloc(), &disk, moment);
        assert_eq!(rt; stays, Ok(true), "{moment}");
    }
    Ok(())
}

// Each call of the disk fails once.
#[test]
fn a_fault_leaves_what_was_committed(rt: HostRuntime) -> Result<(), Fail> {
    let (whole, _) = make_and_play(rt.alloc(), &[], &CALLS)?;
    for fault in 0..whole.moment() {
        let (disk, played) = make_and_play(rt.alloc(), &[fault], &CALLS)?;
        if let Some(played) = played {
            assert_eq!(rt; played.refused, Some(Refused::DiskFault), "{fault}");
        }
        let (_, seen) = seen_on(rt.alloc(), disk);
        let reached = reached(played);
        assert!(rt;
            seen.is_ok_and(|seen| is_left(seen, reached)),
            "{fault}: {seen:?}"
        );
    }
    Ok(())
}

// The bytes of a file.
fn bytes_of(alloc: Global, disk: &mut MemoryDisk, file: u8) -> Result<Vec<u8>, Fail> {
    let file = FileId(file.min(7));
    let len = disk.length(file).ok().ok_or("length")?;
    let mut bytes = vec![in alloc; 0; len.min(1_000_000) as usize]?;
    disk.read(file, 0, &mut bytes).ok().ok_or("read")?;
    Ok(bytes)
}

// A disk with these files, whose call at this moment fails.
fn with_fault(alloc: Global, disk: &mut MemoryDisk, fault: u64) -> Result<MemoryDisk, Fail> {
    let files = vec![in alloc;
        bytes_of(alloc, disk, 0)?,
        bytes_of(alloc, disk, 1)?,
        bytes_of(alloc, disk, 2)?,
    ]?;
    Ok(MemoryDisk::new(alloc, files, 200_000, Vec::from_slice(alloc, &[fault])?)?)
}

// Whether an opening in which each call of the disk fails once is told as such, and the next one shows the same as an opening
// without a fault.
fn outlives_faults(alloc: Global, disk: &mut MemoryDisk) -> Result<bool, Fail> {
    let (opened, seen) = seen_on(alloc, with_fault(alloc, disk, u64::MAX)?);
    for fault in 0..opened.moment() {
        let (refused, first) = seen_on(alloc, with_fault(alloc, disk, fault)?);
        let (_, second) = seen_on(alloc, refused);
        if first != Err(Refused::DiskFault) || second != seen {
            return Ok(false);
        }
    }
    Ok(seen.is_ok())
}

// Behind the same stops.
#[test]
fn an_opening_with_a_fault_is_made_again(rt: HostRuntime) -> Result<(), Fail> {
    let (disk, _) = make_and_play(rt.alloc(), &[], &CALLS)?;
    for moment in STOPS {
        let mut left = disk.after_stop(rt.alloc(), moment.min(disk.moment()), Pick::Torn(0xa5))?;
        assert!(rt; outlives_faults(rt.alloc(), &mut left)?, "{moment}");
    }
    Ok(())
}

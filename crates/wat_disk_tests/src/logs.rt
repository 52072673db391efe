// Gate logs on a disk in memory.
ghost use Rattle.std.specs.Prelude.{◌≤◌};

use std::alloc::Global;
use std::process::Abort;
use std::test::Fail;
use wat_disk::{Disk, DiskFault, FileId, MemoryDisk, Pick};
use wat_gate::{Frame, GateLog, GatePlace, GateRefusal};

const LOG: FileId = FileId(0);

// A log with the body AA alone: its gate, its length, the body and the next gate.
const ONE: [u8; 7] = [0xA5, 0, 0, 0, 1, 0xAA, 0];

// A disk whose first file has these bytes, and whose calls at these moments fail.
fn disk_of(alloc: Global, bytes: &[u8], fails: &[u64]) -> Result<MemoryDisk, Fail> {
    let files = vec![in alloc; bytes.to_vec(alloc)?]?;
    Ok(MemoryDisk::new(alloc, files, 64, fails.to_vec(alloc)?)?)
}

// A frame of a short body.
fn frame_of(alloc: Global, body: &[u8]) -> Result<Frame, Fail> {
    let mut frame = Frame::new(alloc)?;
    if body.len() <= 100 {
        frame.push(body)?;
    }
    Ok(frame)
}

fn refusal_of(alloc: Global, bytes: &[u8]) -> Result<Option<GateRefusal>, Fail> {
    let mut disk = disk_of(alloc, bytes, &[])?;
    Ok(GateLog::open(&mut disk, LOG).err())
}

fn frames_of<D: Disk>(disk: &mut D) -> Result<u64, Fail> {
    let log = GateLog::open(disk, LOG).ok().ok_or("open")?;
    Ok(log.frames())
}

// Appends the frame where it has room, and answers how many calls of the disk that took.
fn append_frame<D: Disk>(disk: &mut D, frame: &Frame) -> Result<Option<u64>, Fail> {
    let mut log = GateLog::open(disk, LOG).ok().ok_or("open")?;
    if frame.is_empty() || !log.has_room(frame) {
        return Ok(None);
    }
    let before = disk.moment();
    match log.append(disk, frame) {
        Ok(()) => Ok(disk.moment().checked_sub(before)),
        Err(DiskFault) => Ok(None),
    }
}

// Appends this body.
fn append<D: Disk>(alloc: Global, disk: &mut D, body: &[u8]) -> Result<Option<u64>, Fail> {
    let frame = frame_of(alloc, body)?;
    append_frame(disk, &frame)
}

// Clears the log, and answers how many calls of the disk that took.
fn clear<D: Disk>(disk: &mut D) -> Result<Option<u64>, Fail> {
    let mut log = GateLog::open(disk, LOG).ok().ok_or("open")?;
    let before = disk.moment();
    log.clear(disk).ok().ok_or("clear")?;
    Ok(disk.moment().checked_sub(before))
}

fn held<D: Disk>(alloc: Global, disk: &mut D) -> Result<Vec<u8>, Fail> {
    let length = disk.length(LOG)?;
    let mut bytes = vec![in alloc; 0; length as usize]?;
    disk.read(LOG, 0, bytes.as_mut_slice())?;
    Ok(bytes)
}

#[test]
fn a_frame_grows_and_is_used_again(rt: HostRuntime) -> Result<(), Fail> {
    let mut frame = Frame::new(rt.alloc())?;
    assert!(rt; frame.is_empty());
    frame.reserve(3)?;
    frame.push(&[1, 2])?;
    frame.push(&[3])?;
    assert_eq!(rt; frame.len(), 3);
    assert_eq!(rt; frame.as_slice(), [1, 2, 3].as_slice());
    frame.clear();
    frame.push(&[4])?;
    assert_eq!(rt; frame.as_slice(), [4].as_slice());
    Ok(())
}

// What an append leaves of these bytes, and how many calls it takes.
fn after_append(alloc: Global, old: &[u8], body: &[u8]) -> Result<(Vec<u8>, Option<u64>), Fail> {
    let mut disk = disk_of(alloc, old, &[])?;
    let calls = append(alloc, &mut disk, body)?;
    Ok((held(alloc, &mut disk)?, calls))
}

// The last is the log of a database after one row.
#[test]
fn a_frame_is_written_behind_the_closed_gate(rt: HostRuntime) -> Result<(), Fail> {
    let row: [u8; 20] = [0, 2, 1, 0, 0, 0, 0, 0, 0, 0, 2, 1, 0, 0, 0, 0, 0, 0, 0, 5];
    let logs: [(&[u8], &[u8], &[u8]); 4] = [
        (&[0], &[0xAA], &ONE),
        (
            &[7, 7, 7, 7, 7, 7, 7, 7],
            &[0xAA],
            &[0xA5, 0, 0, 0, 1, 0xAA, 0, 7],
        ),
        (
            &ONE,
            &[1, 2],
            &[0xA5, 0, 0, 0, 1, 0xAA, 0xA5, 0, 0, 0, 2, 1, 2, 0],
        ),
        (
            &[0],
            &row,
            &[
                0xA5, 0, 0, 0, 20, 0, 2, 1, 0, 0, 0, 0, 0, 0, 0, 2, 1, 0, 0, 0, 0, 0, 0, 0, 5, 0,
            ],
        ),
    ];
    for (old, body, new) in logs {
        let (bytes, calls) = after_append(rt.alloc(), old, body)?;
        assert_eq!(rt; calls, Some(4), "two writes and two syncs");
        assert_eq!(rt; bytes.as_slice(), new);
    }
    Ok(())
}

// What a clear leaves of the log, and how many calls it takes.
fn after_clear<D: Disk>(alloc: Global, disk: &mut D) -> Result<(Vec<u8>, Option<u64>), Fail> {
    let calls = clear(disk)?;
    Ok((held(alloc, disk)?, calls))
}

// A log with frames has its first gate closed; one without is only synced.
#[test]
fn a_log_is_cleared(rt: HostRuntime) -> Result<(), Fail> {
    let mut disk = disk_of(rt.alloc(), &ONE, &[])?;
    for want in [2, 1] {
        let (bytes, calls) = after_clear(rt.alloc(), &mut disk)?;
        assert_eq!(rt; calls, Some(want));
        assert_eq!(rt; bytes.as_slice(), [0, 0, 0, 0, 1, 0xAA, 0].as_slice());
    }
    let frames = frames_of(&mut disk)?;
    assert_eq!(rt; frames, 0);
    Ok(())
}

// Opening takes four calls, the place of the last gate none, and that of the first gate one.
fn ask_places<D: Disk>(rt: &impl Abort, disk: &mut D) -> Result<(), Fail> {
    let log = GateLog::open(disk, LOG).ok().ok_or("open")?;
    assert!(rt; log.frames() == 1);
    assert!(rt; disk.moment() == 4);
    let last = log.place(disk, 1).ok().ok_or("place")?;
    assert!(rt; last == 6);
    assert!(rt; disk.moment() == 4);
    let first = log.place(disk, 0).ok().ok_or("place")?;
    assert!(rt; first == 0);
    assert!(rt; disk.moment() == 5);
    Ok(())
}

// Reads the first frame by its number.
fn read_one<D: Disk>(rt: &impl Abort, alloc: Global, disk: &mut D) -> Result<(), Fail> {
    let log = GateLog::open(disk, LOG).ok().ok_or("open")?;
    assert!(rt; log.frames() == 1);
    let mut body = Vec::new(alloc);
    log.frame(disk, 0, &mut body).ok().ok_or("frame")?;
    assert!(rt; body.as_slice() == [0xAA].as_slice());
    Ok(())
}

// Reads the first frame by its gate.
fn read_first<D: Disk>(rt: &impl Abort, alloc: Global, disk: &mut D) -> Result<(), Fail> {
    let log = GateLog::open(disk, LOG).ok().ok_or("open")?;
    assert!(rt; log.frames() == 1);
    let mut body = Vec::new(alloc);
    let next = log
        .frame_at(disk, GatePlace { gate: 0, at: 0 }, &mut body)
        .ok()
        .ok_or("frame_at")?;
    assert!(rt; next == GatePlace { gate: 1, at: 6 });
    assert!(rt; body.as_slice() == [0xAA].as_slice());
    Ok(())
}

#[test]
fn a_frame_is_read(rt: HostRuntime) -> Result<(), Fail> {
    let mut disk = disk_of(rt.alloc(), &ONE, &[])?;
    ask_places(&rt, &mut disk)?;
    read_one(&rt, rt.alloc(), &mut disk)?;
    read_first(&rt, rt.alloc(), &mut disk)
}

// The logs are whole where no place is named.
#[test]
fn a_broken_log_is_named_by_its_gate(rt: HostRuntime) -> Result<(), Fail> {
    let logs: [(&[u8], Option<u64>); 10] = [
        (&[0, 0xA5], None),
        (&[1], None),
        (&[0xA5, 0, 0, 0, 1, 0xAA, 0xFF], None),
        (&[], Some(0)),
        (&[0xA5], Some(0)),
        (&[0xA5, 0, 0, 0, 0, 0], Some(0)),
        (&[0xA5, 0, 0, 0, 1, 0xAA], Some(0)),
        (&[0xA5, 0, 0, 0, 1, 0xAA, 0xA5], Some(6)),
        (
            &[0xA5, 0, 0, 0, 1, 0xAA, 0xA5, 0, 0, 0, 2, 0xBB, 0],
            Some(6),
        ),
        (
            &[0xA5, 0, 0, 0, 1, 0xAA, 0xA5, 0xFF, 0xFF, 0xFF, 0xFF, 0],
            Some(6),
        ),
    ];
    for (bytes, place) in logs {
        let refusal = refusal_of(rt.alloc(), bytes)?;
        assert_eq!(rt; refusal, place.map(|at| GateRefusal::Damaged { at }));
    }
    Ok(())
}

// An open gate, this length, and so many zeros.
fn zeros_of(alloc: Global, length: u32, zeros: usize) -> Result<Vec<u8>, Fail>
    requires { zeros ≤ 4000000 }
{
    let mut log = vec![in alloc; 0xA5]?;
    log.extend_from_slice(&length.to_be_bytes())?;
    log.resize(5 + zeros, 0)?;
    Ok(log)
}

// A body of 2,000,000 bytes, and of one more, each with a next gate.
#[test]
fn a_body_has_at_most_two_million_bytes(rt: HostRuntime) -> Result<(), Fail> {
    let whole = refusal_of(rt.alloc(), &zeros_of(rt.alloc(), 2_000_000, 2_000_001)?)?;
    assert_eq!(rt; whole, None);
    let broken = refusal_of(rt.alloc(), &zeros_of(rt.alloc(), 2_000_001, 2_000_002)?)?;
    assert_eq!(rt; broken, Some(GateRefusal::Damaged { at: 0 }));
    Ok(())
}

// How many calls an append took to an empty log whose call at this moment fails, and how many frames are there then.
fn after_fault(alloc: Global, call: u64) -> Result<(Option<u64>, u64), Fail> {
    let mut disk = disk_of(alloc, &[0], &[call])?;
    let calls = append(alloc, &mut disk, &[0xAA])?;
    Ok((calls, frames_of(&mut disk)?))
}

// Opening an empty log takes two calls. Then the first write, its sync, the write of the gate and its sync fail in turn:
// only after the write of the gate the frame is there.
#[test]
fn a_fault_ends_an_append(rt: HostRuntime) -> Result<(), Fail> {
    for (call, frames) in [(2, 0), (3, 0), (4, 0), (5, 1)] {
        let after = after_fault(rt.alloc(), call)?;
        assert_eq!(rt; after, (None, frames), "call {call}");
    }
    Ok(())
}

// How many frames a stop leaves.
fn frames_left(alloc: Global, disk: &MemoryDisk, moment: u64, pick: Pick) -> Result<u64, Fail> {
    let reached = moment.min(disk.moment());
    let mut left = disk.after_stop(alloc, reached, pick)?;
    frames_of(&mut left)
}

// The log is open at moment 2; the append has written the frame by moment 3, synced it by 4, opened its gate by 5 and synced
// that by 6. What a stop leaves has the frame from 6 on, and at 5 where the gate is on the disk.
#[test]
fn a_stop_leaves_a_frame_or_none(rt: HostRuntime) -> Result<(), Fail> {
    let mut disk = disk_of(rt.alloc(), &[0], &[])?;
    let calls = append(rt.alloc(), &mut disk, &[0xAA])?;
    assert_eq!(rt; calls, Some(4));
    for (moment, pick, frames) in [
        (2, Pick::New, 0),
        (3, Pick::Old, 0),
        (3, Pick::New, 0),
        (3, Pick::Torn(0xA5), 0),
        (4, Pick::New, 0),
        (5, Pick::Old, 0),
        (5, Pick::New, 1),
        (5, Pick::Torn(0xA5), 1),
        (5, Pick::Torn(0), 0),
        (6, Pick::Old, 1),
    ] {
        let left = frames_left(rt.alloc(), &disk, moment, pick)?;
        assert_eq!(rt; left, frames, "{pick:?} at {moment}");
    }
    Ok(())
}

// The log is open at moment 4; the clear has closed the first gate by moment 5, and synced it by 6.
#[test]
fn a_stop_leaves_all_frames_or_none(rt: HostRuntime) -> Result<(), Fail> {
    let mut disk = disk_of(rt.alloc(), &ONE, &[])?;
    let calls = clear(&mut disk)?;
    assert_eq!(rt; calls, Some(2));
    for (moment, pick, frames) in [
        (4, Pick::New, 1),
        (5, Pick::Old, 1),
        (5, Pick::New, 0),
        (5, Pick::Torn(0xA5), 1),
        (5, Pick::Torn(0xFF), 0),
        (6, Pick::Old, 0),
    ] {
        let left = frames_left(rt.alloc(), &disk, moment, pick)?;
        assert_eq!(rt; left, frames, "{pick:?} at {moment}");
    }
    Ok(())
}

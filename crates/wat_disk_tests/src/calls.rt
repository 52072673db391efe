// The calls of a disk in memory, one after another.
use std::test::Fail;
use wat_disk::{Disk, DiskError, FileId, MemoryDisk, write_synced};

// A call of a disk. A read is of two bytes.
#[derive(Clone, Copy, Debug)]
pub enum Call {
    Length,
    Read { at: u64 },
    Write { at: u64, bytes: &'static [u8] },
    Sync,
}

// What a call on a file answers: a length, or the two bytes as a number.
pub fn answer(disk: &mut MemoryDisk, file: u8, call: Call) -> Result<u64, DiskError> {
    let file = FileId(file % 8);
    match call {
        Call::Length => disk.length(file),
        Call::Read { at } => {
            let mut two = [0; 2];
            disk.read(file, at, &mut two)?;
            Ok(u64::from(u16::from_be_bytes(two)))
        }
        Call::Write { at, bytes } => {
            disk.write_at(file, at, bytes)?;
            Ok(0)
        }
        Call::Sync => {
            disk.sync(file)?;
            Ok(0)
        }
    }
}

// A disk whose file 0 holds 1, 2 and 3, and whose calls at these moments fail.
pub fn one_two_three(rt: &HostRuntime, room: usize, fails: &[u64]) -> Result<MemoryDisk, Fail> {
    let alloc = rt.alloc();
    let files = vec![in alloc; vec![in alloc; 1, 2, 3]?]?;
    Ok(MemoryDisk::new(alloc, files, room, fails.to_vec(alloc)?)?)
}

// Calls by their moments: those at 4, 9, 10 and 11 are to fail; six bytes and more calls than these fit.
#[test]
fn a_disk_in_memory_answers(rt: HostRuntime) -> Result<(), Fail> {
    let mut disk = one_two_three(&rt, 6, &[4, 9, 10, 11])?;
    let nine: &[u8] = &[9];
    let three: &[u8] = &[7, 8, 9];
    let none: &[u8] = &[];
    for (file, call, want) in [
        (0, Call::Length, Ok(3)),
        (0, Call::Write { at: 5, bytes: nine }, Ok(0)),
        (0, Call::Sync, Ok(0)),
        (0, Call::Read { at: 4 }, Ok(9)),
        (0, Call::Sync, Err(DiskError::Failed)),
        (0, Call::Read { at: 5 }, Err(DiskError::Past)),
        (
            1,
            Call::Write {
                at: 0,
                bytes: three,
            },
            Ok(0),
        ),
        (1, Call::Sync, Ok(0)),
        (
            2,
            Call::Write { at: 0, bytes: nine },
            Err(DiskError::Failed),
        ),
        (0, Call::Length, Err(DiskError::Failed)),
        (0, Call::Read { at: 5 }, Err(DiskError::Failed)),
        (
            0,
            Call::Write { at: 0, bytes: none },
            Err(DiskError::Failed),
        ),
        (
            0,
            Call::Write {
                at: u64::MAX,
                bytes: nine,
            },
            Err(DiskError::Failed),
        ),
        (0, Call::Read { at: u64::MAX }, Err(DiskError::Past)),
        (0, Call::Read { at: 0 }, Ok(0x0102)),
        (0, Call::Read { at: 2 }, Ok(0x0300)),
        (1, Call::Read { at: 1 }, Ok(0x0809)),
    ] {
        let moment = disk.moment();
        let got = answer(&mut disk, file, call);
        assert_eq!(rt; got, want, "{call:?} at moment {moment}");
    }
    assert_eq!(rt; disk.moment(), 17);
    assert_eq!(rt; disk.calls().len(), 4, "two writes and two syncs");
    Ok(())
}

// There is room for one write and its sync.
#[test]
fn a_write_is_synced(rt: HostRuntime) -> Result<(), Fail> {
    let mut disk = one_two_three(&rt, 2, &[])?;
    let written = write_synced(&mut disk, FileId(3), 0, &[5, 6]);
    assert!(rt; written.is_ok());
    let again = write_synced(&mut disk, FileId(3), 0, &[5, 6]);
    assert!(rt; again.is_err());
    assert_eq!(rt; answer(&mut disk, 3, Call::Read { at: 0 }), Ok(0x0506));
    Ok(())
}

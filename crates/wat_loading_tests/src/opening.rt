// What opening answers, by the files; it writes nothing.
use crate::files::{Fault, disk};
use std::alloc::Global;
use std::test::Fail;
use wat_disk::FileId;
use wat_loading::load;
use wat_pages::PageRefusal;

// How many rows the table has, how many changes connection 7, and how many frames the log; or why the files are not opened. And
// whether nothing was written.
fn loaded(
    alloc: Global,
    faults: &[Fault],
    fails: &[u64],
) -> Result<(Result<(usize, u32, u64), PageRefusal>, bool), Fail> {
    let mut disk = disk(alloc, faults, fails)?;
    let answer = match load(alloc, &mut disk) {
        Ok(loaded) => Ok((
            loaded.objects.keys(1)?.len(),
            loaded.objects.count(7),
            loaded.log.frames(),
        )),
        Err(refusal) => Err(refusal),
    };
    Ok((answer, disk.calls().is_empty()))
}

fn at(file: u8, at: u64) -> Result<(usize, u32, u64), PageRefusal> {
    Err(PageRefusal::Damaged {
        file: FileId(file),
        at,
    })
}

fn byte(file: usize, at: usize, byte: u8) -> Fault {
    Fault::Byte { file, at, byte }
}

fn cut(file: usize, len: usize) -> Fault {
    Fault::Cut { file, len }
}

#[test]
fn whole_files_are_loaded(rt: HostRuntime) -> Result<(), Fail> {
    assert_eq!(rt; loaded(rt.alloc(), &[], &[])?, (Ok((3, 1, 2)), true));
    Ok(())
}

// Each step of the walk, in its order: the before file, the header, the chain of the schema, that of the changes, the free page;
// the schema's payload and the changes'; a rule of the schema; the rows; undoing; the log, and what the header says of it.
#[test]
fn a_fault_is_told_at_its_place(rt: HostRuntime) -> Result<(), Fail> {
    for (fault, want) in [
        (cut(1, 0), at(1, 0)),
        (byte(0, 0, b'w'), at(0, 0)),
        (cut(0, 4096), at(0, 4096)),
        (byte(0, 4096, 3), at(0, 4096)),
        (byte(0, 4103, 1), at(0, 4096)),
        (byte(0, 4103, 2), at(0, 8192)),
        (byte(0, 12288, 3), at(0, 12288)),
        (byte(0, 12295, 1), at(0, 4096)),
        (byte(0, 47, 1), at(0, 4096)),
        (byte(0, 16384, 3), at(0, 16384)),
        (byte(0, 16391, 1), at(0, 4096)),
        (byte(0, 16391, 4), at(0, 16384)),
        (byte(0, 4119, 0), at(0, 4096)),
        (byte(0, 4105, 31), at(0, 4096)),
        (byte(0, 12312, 9), at(0, 12288)),
        (byte(0, 4130, b'k'), at(0, 4096)),
        (byte(0, 8192, 4), at(0, 8192)),
        (byte(0, 8213, 2), at(0, 8192)),
        (byte(0, 8250, 1), at(0, 8192)),
        (byte(0, 12336, 51), at(0, 12288)),
        (byte(0, 12311, 2), at(0, 12288)),
        (cut(2, 120), at(2, 28)),
        (byte(2, 28, 7), at(2, 28)),
        (byte(2, 0, 0), at(2, 0)),
        (byte(0, 31, 3), at(2, 120)),
        (byte(0, 39, 28), at(2, 120)),
    ] {
        let (answer, unwritten) = loaded(rt.alloc(), &[fault], &[])?;
        assert_eq!(rt; answer, want, "{fault:?}");
        assert!(rt; unwritten, "{fault:?}");
    }
    Ok(())
}

// Of two faults the one is told that the walk comes to first: the changes' payload before a rule of the schema, both payloads
// before the rows, the rows before undoing, and all pages before the log.
#[test]
fn the_first_fault_is_told(rt: HostRuntime) -> Result<(), Fail> {
    for (first, second, want) in [
        (cut(1, 0), byte(0, 0, b'w'), at(1, 0)),
        (byte(0, 12288, 3), byte(0, 4119, 0), at(0, 12288)),
        (byte(0, 16384, 3), byte(0, 4119, 0), at(0, 16384)),
        (byte(0, 12312, 9), byte(0, 4130, b'k'), at(0, 12288)),
        (byte(0, 4119, 0), byte(0, 12312, 9), at(0, 4096)),
        (byte(0, 4130, b'k'), byte(0, 8192, 4), at(0, 4096)),
        (byte(0, 8192, 4), byte(0, 12336, 51), at(0, 8192)),
        (byte(0, 12336, 51), cut(2, 120), at(0, 12288)),
    ] {
        let (answer, unwritten) = loaded(rt.alloc(), &[second, first], &[])?;
        assert_eq!(rt; answer, want, "{first:?} {second:?}");
        assert!(rt; unwritten, "{first:?} {second:?}");
    }
    Ok(())
}

// Each call of the disk fails once: the disk's fault is told, and nothing was written.
#[test]
fn each_call_that_fails_is_told(rt: HostRuntime) -> Result<(), Fail> {
    let mut last = 0;
    for moment in 0..200 {
        match loaded(rt.alloc(), &[], &[moment])? {
            (Err(PageRefusal::DiskFault), true) => last = moment,
            (answer, unwritten) => {
                assert_eq!(rt; (answer, unwritten), (Ok((3, 1, 2)), true), "{moment}");
                break;
            }
        }
    }
    assert!(rt; last > 8, "{last}");
    Ok(())
}

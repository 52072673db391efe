// The disk of a real program, in the folder that the test runs in.
ghost use Rattle.std.specs.Prelude.{◌<◌};

use std::alloc::Global;
use std::fs;
use std::fs::OpenFile;
use std::test::Fail;
use wat_disk::{Disk, DiskError, FileId};
use wat_folder::{FileDisk, Holder};

const SPARE: FileId = FileId(7);

// The first four bytes of the file.
fn four_bytes<D: Disk>(disk: &mut D) -> Result<[u8; 4], DiskError> {
    let mut four = [0; 4];
    disk.read(SPARE, 0, &mut four)?;
    Ok(four)
}

// Writes two bytes behind a gap of two.
fn write_two<D: Disk>(disk: &mut D) -> Result<(), DiskError> {
    disk.write_at(SPARE, 2, &[5, 6])?;
    disk.sync(SPARE)
}

// Whether a write to a file makes this one, which is taken away again.
fn makes(rt: &HostRuntime, alloc: Global, file: FileId, name: &str) -> Result<bool, Fail>
    requires { file.0 < 8 }
{
    let mut disk = FileDisk::new(rt, alloc, 1);
    disk.write_at(file, 0, &[1])?;
    let made = fs::metadata(rt, name).is_ok();
    fs::remove_file(rt, name)?;
    Ok(made)
}

#[test]
fn a_file_that_is_not_there_is_empty_and_is_made_by_a_write(rt: HostRuntime) -> Result<(), Fail> {
    let mut disk = FileDisk::new(&rt, rt.alloc(), 1);
    assert_eq!(rt; disk.length(SPARE), Ok(0));
    assert_eq!(rt; four_bytes(&mut disk), Err(DiskError::Past));
    assert_eq!(rt; disk.write_at(SPARE, 0, &[]), Ok(()));
    assert!(rt; fs::metadata(&rt, "spare.wat").is_err());
    assert_eq!(rt; write_two(&mut disk), Ok(()));
    assert_eq!(rt; disk.write_at(SPARE, 0, &[4]), Ok(()));
    assert_eq!(rt; four_bytes(&mut disk), Ok([4, 0, 5, 6]));
    assert_eq!(rt; disk.moment(), 7);
    fs::remove_file(&rt, "spare.wat")?;
    Ok(())
}

#[test]
fn a_folder_in_the_place_of_a_file_fails(rt: HostRuntime) -> Result<(), Fail> {
    fs::create_dir(&rt, "spare.wat")?;
    let mut disk = FileDisk::new(&rt, rt.alloc(), 1);
    assert_eq!(rt; disk.length(SPARE), Err(DiskError::Failed));
    fs::remove_dir(&rt, "spare.wat")?;
    Ok(())
}

#[test]
fn a_second_disk_has_the_folder_only_after_the_first(rt: HostRuntime) -> Result<(), Fail> {
    let mut first = FileDisk::new(&rt, rt.alloc(), 7);
    assert_eq!(rt; first.holder(), Holder::Unknown);
    assert_eq!(rt; first.length(SPARE), Ok(0));
    let mut second = FileDisk::new(&rt, rt.alloc(), 8);
    assert_eq!(rt; second.length(SPARE), Err(DiskError::Failed));
    assert_eq!(rt; second.holder(), Holder::Another(Some(7)));
    drop(first);
    assert_eq!(rt; second.length(SPARE), Ok(0));
    assert_eq!(rt; second.holder(), Holder::This);
    Ok(())
}

#[test]
fn a_file_that_another_has_lengthened_is_not_written(rt: HostRuntime) -> Result<(), Fail> {
    let mut disk = FileDisk::new(&rt, rt.alloc(), 1);
    assert_eq!(rt; write_two(&mut disk), Ok(()));
    fs::OpenOptions::new()
        .write(true)
        .open(&rt, "spare.wat")?
        .set_len(5)?;
    assert_eq!(rt; disk.write_at(SPARE, 0, &[9]), Err(DiskError::Failed));
    assert_eq!(rt; disk.write_at(SPARE, 0, &[9]), Err(DiskError::Failed));
    let mut again = FileDisk::new(&rt, rt.alloc(), 1);
    assert_eq!(rt; again.length(SPARE), Err(DiskError::Failed));
    drop(disk);
    assert_eq!(rt; again.length(SPARE), Ok(5));
    assert_eq!(rt; four_bytes(&mut again), Ok([0, 0, 5, 6]));
    fs::remove_file(&rt, "spare.wat")?;
    Ok(())
}

#[test]
fn each_file_has_its_name(rt: HostRuntime) -> Result<(), Fail> {
    for (file, name) in [
        (0, "main.wat"),
        (1, "before.wat"),
        (2, "log.wat"),
        (3, "backup.wat"),
        (4, "copy.wat"),
        (5, "mirror.wat"),
        (6, "leader.wat"),
        (7, "spare.wat"),
    ] {
        let number: u8 = file;
        let made = makes(&rt, rt.alloc(), FileId(number % 8), name)?;
        assert!(rt; made, "{name}");
    }
    Ok(())
}

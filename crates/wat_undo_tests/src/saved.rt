// Lists that are saved in a checkpoint, stopped and loaded.
use crate::files::empty_disk;
use crate::lists::{all_of, number_of, pushed};
use std::alloc::Global;
use std::test::Fail;
use wat_disk::{Disk, MemoryDisk, Pick};
use wat_pages::{Header, PageRefusal, Pages};
use wat_undo::Undo;

// Saves the lists, and makes a checkpoint: the first page, and how many pages there are.
fn save<D: Disk>(alloc: Global, disk: &mut D, undo: &Undo) -> Result<(u32, u32), PageRefusal> {
    if undo.len() > 65_535 {
        return Err(PageRefusal::Memory);
    }
    let mut pages = Pages::open(alloc, disk)?;
    let rollback = undo.save(&mut pages, disk)?;
    let header = Header {
        frames: 0,
        place: 0,
        catalog: 1,
        rollback,
        next_table: 1,
    };
    pages.checkpoint(disk, &header)?;
    Ok((rollback, pages.count()))
}

fn load<D: Disk>(alloc: Global, disk: &mut D) -> Result<Undo, PageRefusal> {
    let mut pages = Pages::open(alloc, disk)?;
    let first = pages.header().rollback;
    Undo::load(alloc, &mut pages, disk, first)
}

// The changes that the disk has, in order of connection.
fn loaded<D: Disk>(alloc: Global, disk: &mut D) -> Result<Vec<(u16, i64)>, Fail> {
    let undo = load(alloc, disk).ok().ok_or("load")?;
    all_of(alloc, &undo)
}

// Saved, each change has 16 bytes, each connection 6, and all 2.
fn changes_of(alloc: Global, conns: u16, each: i64) -> Result<Vec<(u16, i64)>, Fail> {
    let mut changes = Vec::new(alloc);
    for conn in 0..conns {
        for number in 0..each {
            changes.push((conn, number))?;
        }
    }
    Ok(changes)
}

#[test]
fn lists_are_saved_and_loaded(rt: HostRuntime) -> Result<(), Fail> {
    for (conns, each, first, count) in [
        (0, 0, 0, 2),
        (1, 1, 2, 3),
        (1, 254, 2, 3),
        (1, 255, 3, 4),
        (64, 10, 4, 5),
        (1000, 1, 7, 8),
    ] {
        let changes = changes_of(rt.alloc(), conns, each)?;
        let mut disk = empty_disk(rt.alloc())?;
        let undo = pushed(rt.alloc(), changes.as_slice())?;
        let saved = save(rt.alloc(), &mut disk, &undo);
        assert_eq!(rt; saved, Ok((first, count)), "{conns} of {each}");
        let all = loaded(rt.alloc(), &mut disk)?;
        assert_eq!(rt; all.as_slice(), changes.as_slice());
    }
    Ok(())
}

// What is taken off the connection's list once the lists were saved and loaded.
fn popped<D: Disk>(
    alloc: Global,
    disk: &mut D,
    undo: &Undo,
    conn: u16,
) -> Result<Option<i64>, PageRefusal> {
    save(alloc, disk, undo)?;
    let mut loaded = load(alloc, disk)?;
    match loaded.pop(conn) {
        Some(change) => Ok(number_of(&change)),
        None => Ok(None),
    }
}

#[test]
fn the_change_pushed_last_is_popped_after_a_load(rt: HostRuntime) -> Result<(), Fail> {
    let undo = pushed(rt.alloc(), &[(7, 1), (8, 2), (7, 3)])?;
    for (conn, want) in [(7, Some(3)), (8, Some(2)), (9, None)] {
        let mut disk = empty_disk(rt.alloc())?;
        let got = popped(rt.alloc(), &mut disk, &undo, conn);
        assert_eq!(rt; got, Ok(want), "{conn}");
    }
    Ok(())
}

fn stopped(alloc: Global, disk: &MemoryDisk, moment: u64, pick: Pick) -> Result<MemoryDisk, Fail> {
    Ok(disk.after_stop(alloc, moment.min(disk.moment()), pick)?)
}

// A disk on which these lists were saved, and then these.
fn saved_twice(alloc: Global, old: &[(u16, i64)], new: &[(u16, i64)]) -> Result<MemoryDisk, Fail> {
    let mut disk = empty_disk(alloc)?;
    save(alloc, &mut disk, &pushed(alloc, old)?)
        .ok()
        .ok_or("old")?;
    save(alloc, &mut disk, &pushed(alloc, new)?)
        .ok()
        .ok_or("new")?;
    Ok(disk)
}

// The lists of 300 connections are saved, and then those of 5, each on two pages. A stop at any moment leaves no lists, the
// first or the second, and at the end the second.
#[test]
fn a_stop_leaves_the_lists_of_one_checkpoint(rt: HostRuntime) -> Result<(), Fail> {
    let old = changes_of(rt.alloc(), 300, 1)?;
    let new = changes_of(rt.alloc(), 5, 60)?;
    let disk = saved_twice(rt.alloc(), old.as_slice(), new.as_slice())?;
    let last = disk.moment();
    for moment in 0..last.saturating_add(1) {
        for pick in [Pick::Old, Pick::New, Pick::Torn(0), Pick::Torn(0xa5)] {
            let mut left = stopped(rt.alloc(), &disk, moment, pick)?;
            let all = loaded(rt.alloc(), &mut left)?;
            let is_new = all.as_slice() == new.as_slice();
            let is_one = is_new || all.is_empty() || all.as_slice() == old.as_slice();
            assert!(rt; is_one, "{pick:?} at {moment}");
            assert!(rt; moment < last || is_new, "at the end");
        }
    }
    Ok(())
}

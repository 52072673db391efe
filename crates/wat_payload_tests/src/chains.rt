// Payloads on chains, written and read back.
use crate::files::empty_disk;
use std::alloc::{AllocError, Global};
use std::test::Fail;
use wat_disk::Disk;
use wat_pages::{Header, PageRefusal, Pages, Within};
use wat_payload::{Chain, read_chain, write_chain};

// So many bytes, of which none equals the next.
fn filled(alloc: Global, len: usize) -> Result<Vec<u8>, AllocError> {
    let mut bytes = Vec::new(alloc);
    for i in 0..len {
        bytes.push((i % 251) as u8)?;
    }
    Ok(bytes)
}

// Writes so many bytes in place of the payload, and makes a checkpoint: the first page, and how many pages there are.
fn write<D: Disk>(alloc: Global, disk: &mut D, len: usize) -> Result<(u32, u32), PageRefusal> {
    let mut pages = Pages::open(alloc, disk)?;
    let payload = filled(alloc, len)?;
    let first = pages.header().rollback;
    let rollback = write_chain(
        alloc,
        &mut pages,
        disk,
        first,
        payload.as_slice(),
        Within::Limit,
    )?;
    let header = Header {
        frames: 0,
        place: 0,
        catalog: 1,
        rollback,
        next_table: 1,
    };
    pages.checkpoint(disk, &header)?;
    Ok((rollback, pages.count()))
}

fn read<D: Disk>(alloc: Global, disk: &mut D) -> Result<Chain, PageRefusal> {
    let mut pages = Pages::open(alloc, disk)?;
    let first = pages.header().rollback;
    read_chain(alloc, &mut pages, disk, first, &[])
}

// Whether the chain has these pages and so many bytes.
fn holds<D: Disk>(
    alloc: Global,
    disk: &mut D,
    list: &[u32],
    len: usize,
) -> Result<bool, PageRefusal> {
    let chain = read(alloc, disk)?;
    let want = filled(alloc, len)?;
    Ok(chain.pages.as_slice() == list && chain.payload.as_slice() == want.as_slice())
}

#[test]
fn a_chain_has_as_few_pages_as_its_payload_needs(rt: HostRuntime) -> Result<(), Fail> {
    let cases: [(usize, u32, u32, &[u32]); 6] = [
        (0, 0, 2, &[]),
        (1, 2, 3, &[2]),
        (4080, 2, 3, &[2]),
        (4081, 3, 4, &[3, 2]),
        (8160, 3, 4, &[3, 2]),
        (8161, 4, 5, &[4, 3, 2]),
    ];
    for (len, first, count, list) in cases {
        let mut disk = empty_disk(rt.alloc())?;
        let wrote = write(rt.alloc(), &mut disk, len);
        assert_eq!(rt; wrote, Ok((first, count)), "{len}");
        let held = holds(rt.alloc(), &mut disk, list, len);
        assert_eq!(rt; held, Ok(true), "{len}");
    }
    Ok(())
}

// One payload after another: the first page stays, and the others are freed before pages are taken.
#[test]
fn a_chain_is_written_anew(rt: HostRuntime) -> Result<(), Fail> {
    let mut disk = empty_disk(rt.alloc())?;
    let cases: [(usize, u32, u32, &[u32]); 6] = [
        (8161, 4, 5, &[4, 3, 2]),
        (4081, 4, 5, &[4, 2]),
        (0, 0, 5, &[]),
        (1, 2, 5, &[2]),
        (8161, 2, 5, &[2, 3, 4]),
        (12241, 2, 6, &[2, 5, 3, 4]),
    ];
    for (len, first, count, list) in cases {
        let wrote = write(rt.alloc(), &mut disk, len);
        assert_eq!(rt; wrote, Ok((first, count)), "{len}");
        let held = holds(rt.alloc(), &mut disk, list, len);
        assert_eq!(rt; held, Ok(true), "{len}");
    }
    Ok(())
}

// Of 20 pages 18 are left, and hold 73,440 bytes.
#[test]
fn a_page_too_many_is_refused(rt: HostRuntime) -> Result<(), Fail> {
    let full = Err(PageRefusal::PageLimit {
        count: 20,
        limit: 20,
    });
    for (len, want) in [(73_440, Ok((19, 20))), (73_441, full)] {
        let mut disk = empty_disk(rt.alloc())?;
        let wrote = write(rt.alloc(), &mut disk, len);
        assert_eq!(rt; wrote, want, "{len}");
    }
    Ok(())
}

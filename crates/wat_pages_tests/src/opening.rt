// What opening answers, by the files.
use crate::files::{Filled, Told, disk_of, header_page, main_of};
use std::alloc::{AllocError, Global};
use std::test::Fail;
use wat_disk::{Disk, FileId};
use wat_pages::{PageRefusal, Pages};

const THREE: Told = Told {
    limit: 20,
    count: 3,
    first_free: 0,
};

// A header and two pages, with one byte of the header changed.
fn main_with(alloc: Global, at: usize, byte: u8) -> Result<Vec<u8>, AllocError> {
    let mut main = main_of(alloc, THREE, &[Filled::With(1), Filled::With(2)])?;
    if at < main.len() {
        main[at] = byte;
    }
    Ok(main)
}

// How many pages there are, or why they are not opened; and whether the disk was written.
fn opened(
    alloc: Global,
    main: Vec<u8>,
    before: &[u8],
) -> Result<(Result<u32, PageRefusal>, bool), Fail> {
    let mut disk = disk_of(alloc, main, before, 10_000)?;
    let answer = match Pages::open(alloc, &mut disk) {
        Ok(pages) => Ok(pages.count()),
        Err(refusal) => Err(refusal),
    };
    Ok((answer, disk.calls().is_empty()))
}

const NO_HEADER: Result<u32, PageRefusal> = Err(PageRefusal::Damaged {
    file: FileId(0),
    at: 0,
});

// Where a byte of the header is another, its last one too, it is none; fields may have any value, but for a count of 1.
#[test]
fn a_header_is_tested_byte_by_byte(rt: HostRuntime) -> Result<(), Fail> {
    for (at, byte, want) in [
        (0, b'W', Ok(3)),
        (0, b'w', NO_HEADER),
        (7, b'2', NO_HEADER),
        (11, 2, NO_HEADER),
        (14, 0, NO_HEADER),
        (19, 1, Ok(3)),
        (23, 2, Ok(2)),
        (23, 1, NO_HEADER),
        (43, 77, Ok(3)),
        (51, 9, Ok(3)),
        (55, 0, Ok(3)),
        (56, 1, NO_HEADER),
        (4095, 1, NO_HEADER),
    ] {
        let (answer, unwritten) = opened(rt.alloc(), main_with(rt.alloc(), at, byte)?, &[0])?;
        assert_eq!(rt; answer, want, "{byte} at {at}");
        assert!(rt; unwritten, "{byte} at {at}");
    }
    Ok(())
}

// An open gate and a body of images of these pages; the closed gate is left out.
fn frame(alloc: Global, pages: &[u8], told: Told) -> Result<Vec<u8>, AllocError> {
    let mut bytes = vec![in alloc; 0xA5]?;
    let length = 4100 * (pages.len().min(15) as u32);
    bytes.extend_from_slice(&length.to_be_bytes())?;
    for page in pages {
        bytes.extend_from_slice(&[0, 0, 0, *page])?;
        bytes.extend_from_slice(header_page(alloc, told)?.as_slice())?;
    }
    Ok(bytes)
}

// The frames of these images one behind the other, and a closed gate.
fn before_of(alloc: Global, frames: &[&[u8]]) -> Result<Vec<u8>, AllocError> {
    let told = Told {
        limit: 20,
        count: 5,
        first_free: 0,
    };
    let mut before = Vec::new(alloc);
    for pages in frames {
        before.extend_from_slice(frame(alloc, pages, told)?.as_slice())?;
    }
    before.push(0)?;
    Ok(before)
}

fn images_at(at: u64) -> Result<u32, PageRefusal> {
    Err(PageRefusal::Damaged {
        file: FileId(1),
        at,
    })
}

// The images that are laid over main give the header, if page 0 has one; a page with two is damaged at its second frame.
#[test]
fn images_are_laid_over_main(rt: HostRuntime) -> Result<(), Fail> {
    let cases: [(&[&[u8]], Result<u32, PageRefusal>); 7] = [
        (&[], Ok(3)),
        (&[&[1, 2]], Ok(3)),
        (&[&[1, 0]], Ok(5)),
        (&[&[1], &[2, 0]], Ok(5)),
        (&[&[1, 1]], images_at(0)),
        (&[&[1], &[1]], images_at(4105)),
        (&[&[1, 2], &[3], &[4, 2]], images_at(12310)),
    ];
    for (frames, want) in cases {
        let before = before_of(rt.alloc(), frames)?;
        let (answer, unwritten) = opened(
            rt.alloc(),
            main_with(rt.alloc(), 0, b'W')?,
            before.as_slice(),
        )?;
        assert_eq!(rt; answer, want, "{frames:?}");
        assert!(rt; unwritten, "{frames:?}");
    }
    Ok(())
}

// A checkpoint log that is broken as a gate log, or has a body that is no images.
#[test]
fn a_broken_checkpoint_log_is_told_at_its_gate(rt: HostRuntime) -> Result<(), Fail> {
    let cases: [(&[u8], Result<u32, PageRefusal>); 5] = [
        (&[0], Ok(3)),
        (&[7, 1, 2], Ok(3)),
        (&[], images_at(0)),
        (&[0xA5, 0, 0, 0, 2, 1, 2], images_at(0)),
        (&[0xA5, 0, 0, 0, 1, 0, 0], images_at(0)),
    ];
    for (before, want) in cases {
        let (answer, unwritten) = opened(rt.alloc(), main_with(rt.alloc(), 0, b'W')?, before)?;
        assert_eq!(rt; answer, want, "{before:?}");
        assert!(rt; unwritten, "{before:?}");
    }
    Ok(())
}

// Main without a whole first page has no header.
#[test]
fn a_short_main_has_no_header(rt: HostRuntime) -> Result<(), Fail> {
    for length in [0, 1, 4095] {
        let mut main = main_with(rt.alloc(), 0, b'W')?;
        main.truncate(length);
        let (answer, _) = opened(rt.alloc(), main, &[0])?;
        assert_eq!(rt; answer, NO_HEADER, "{length}");
    }
    Ok(())
}

// The limit, the first free page, two fields of the header, and whether images were left.
fn told_of(alloc: Global, before: &[u8]) -> Result<([u64; 4], bool), Fail> {
    let mut disk = disk_of(alloc, main_with(alloc, 0, b'W')?, before, 10_000)?;
    let pages = Pages::open(alloc, &mut disk).ok().ok_or("open")?;
    let header = pages.header();
    let numbers = [
        u64::from(pages.limit()),
        u64::from(pages.first_free()),
        header.place,
        u64::from(header.next_table),
    ];
    Ok((numbers, pages.has_images()))
}

#[test]
fn pages_tell_their_header_and_whether_images_were_left(rt: HostRuntime) -> Result<(), Fail> {
    let one = before_of(rt.alloc(), &[&[1]])?;
    for (before, want) in [([0].as_slice(), false), (one.as_slice(), true)] {
        let (numbers, left) = told_of(rt.alloc(), before)?;
        assert_eq!(rt; numbers, [20, 0, 99, 3]);
        assert_eq!(rt; left, want);
    }
    Ok(())
}

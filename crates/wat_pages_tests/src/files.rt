// Files of pages, byte by byte.
use std::alloc::{AllocError, Global};
use std::test::Fail;
use wat_disk::MemoryDisk;

// What a page holds: one byte in all places, or a free page's kind and the next one.
#[derive(Clone, Copy, Debug)]
pub enum Filled {
    With(u8),
    Free { next: u8 },
}

// The fields of a header, each small enough for one byte.
#[derive(Clone, Copy, Debug)]
pub struct Told {
    pub limit: u8,
    pub count: u8,
    pub first_free: u8,
}

// The page of a header: frames 7, place 99, catalog 1, no changes to roll back, next table 3.
pub fn header_page(alloc: Global, told: Told) -> Result<Vec<u8>, AllocError> {
    let mut page = Vec::from_slice(alloc, b"WATSQL01")?;
    for number in [1, 4096, u32::from(told.limit), u32::from(told.count)] {
        page.extend_from_slice(&number.to_be_bytes())?;
    }
    page.extend_from_slice(&7u64.to_be_bytes())?;
    page.extend_from_slice(&99u64.to_be_bytes())?;
    for number in [1, 0, u32::from(told.first_free), 3] {
        page.extend_from_slice(&number.to_be_bytes())?;
    }
    page.resize(4096, 0)?;
    Ok(page)
}

fn push_page(main: &mut Vec<u8>, filled: Filled) -> Result<(), AllocError> {
    match filled {
        Filled::With(byte) => main.resize(main.len().saturating_add(4096), byte),
        Filled::Free { next } => {
            main.extend_from_slice(&[4, 0, 0, 0, 0, 0, 0, next])?;
            main.resize(main.len().saturating_add(4088), 0)
        }
    }
}

// Main with this header and these pages behind it.
pub fn main_of(alloc: Global, told: Told, pages: &[Filled]) -> Result<Vec<u8>, AllocError> {
    let mut main = header_page(alloc, told)?;
    for filled in pages {
        push_page(&mut main, *filled)?;
    }
    Ok(main)
}

// A disk with these files, and room for so many bytes and calls.
pub fn disk_of(
    alloc: Global,
    main: Vec<u8>,
    before: &[u8],
    room: usize,
) -> Result<MemoryDisk, Fail> {
    let files = vec![in alloc; main, before.to_vec(alloc)?]?;
    Ok(MemoryDisk::new(alloc, files, room, Vec::new(alloc))?)
}

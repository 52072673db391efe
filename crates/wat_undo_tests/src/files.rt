// Files of pages, byte by byte.
use std::alloc::{AllocError, Global};
use std::test::Fail;
use wat_disk::MemoryDisk;

// Main with a header for at most 20 pages, with the first page of the changes to roll back, and these pages behind it, of
// each its first bytes.
pub fn main_of(alloc: Global, rollback: u8, pages: &[&[u8]]) -> Result<Vec<u8>, AllocError> {
    let mut main = Vec::from_slice(alloc, b"WATSQL01")?;
    let count = pages.len().min(19) as u32 + 1;
    for number in [1, 4096, 20, count, 0, 0, 0, 0, 1, u32::from(rollback), 0, 1] {
        main.extend_from_slice(&number.to_be_bytes())?;
    }
    let mut end: usize = 4096;
    main.resize(end, 0)?;
    for page in pages {
        main.extend_from_slice(page)?;
        end = end.saturating_add(4096);
        main.resize(end, 0)?;
    }
    Ok(main)
}

// A disk with this main file and an empty before file, and room for 500,000 bytes.
pub fn disk_of(alloc: Global, main: Vec<u8>) -> Result<MemoryDisk, Fail> {
    let files = vec![in alloc; main, [0].to_vec(alloc)?]?;
    Ok(MemoryDisk::new(alloc, files, 500_000, Vec::new(alloc))?)
}

// A disk with an empty chain, beside one page.
pub fn empty_disk(alloc: Global) -> Result<MemoryDisk, Fail> {
    disk_of(alloc, main_of(alloc, 0, &[&[3]])?)
}

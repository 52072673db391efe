// A database of two pages and no rows.
use std::alloc::{AllocError, Global};
use std::test::Fail;
use wat_disk::MemoryDisk;

// The header's page: a limit, two pages, none of them free.
fn header_page(alloc: Global, limit: u32) -> Result<Vec<u8>, AllocError> {
    let mut page = Vec::from_slice(alloc, b"WATSQL01")?;
    for number in [1, 4096, limit, 2] {
        page.extend_from_slice(&number.to_be_bytes())?;
    }
    page.resize(40, 0)?;
    for number in [1u32, 0, 0, 1] {
        page.extend_from_slice(&number.to_be_bytes())?;
    }
    page.resize(4096, 0)?;
    Ok(page)
}

/// A disk with the files, on which the pages may come to so many.
pub fn disk_of(alloc: Global, limit: u32) -> Result<MemoryDisk, Fail> {
    let mut main = header_page(alloc, limit)?;
    main.resize(8192, 2)?;
    let mut before = Vec::new(alloc);
    before.push(0)?;
    let files = vec![in alloc; main, before]?;
    Ok(MemoryDisk::new(alloc, files, 10_000, Vec::new(alloc))?)
}

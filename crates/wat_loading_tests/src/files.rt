// The three files of a database, byte by byte: the table t (k INTEGER PRIMARY KEY, v INTEGER) with the rows (1, 10), (3, 30) and
// (5, 50), of which connection 7 has put the last one in and not committed it, and a free page.
use std::alloc::{AllocError, Global};
use std::test::Fail;
use wat_disk::MemoryDisk;

// One thing that is broken in a file.
#[derive(Clone, Copy, Debug)]
pub(crate) enum Fault {
    Byte { file: usize, at: usize, byte: u8 },
    Cut { file: usize, len: usize },
}

const PAGE: usize = 4096;

// The table's definition.
const DEFINITION: [u8; 21] = [
    0, 0, 0, 1, 1, b't', 2, 1, b'k', 1, 0, 0, 0, 1, b'v', 1, 0, 0, 1, 1, 0,
];

fn row(key: u8, value: u8) -> [u8; 20] {
    [
        0, 2, 1, 0, 0, 0, 0, 0, 0, 0, key, 1, 0, 0, 0, 0, 0, 0, 0, value,
    ]
}

// The page of a chain that has this payload.
fn chain(alloc: Global, payload: &[u8]) -> Result<Vec<u8>, AllocError> {
    let mut page = Vec::from_slice(alloc, &[2, 0, 0, 0, 0, 0, 0, 0, 0])?;
    page.extend_from_slice(&[payload.len().min(255) as u8, 0, 0, 0, 0, 0, 0])?;
    page.extend_from_slice(payload)?;
    Ok(page)
}

// The schema: the table, and no index.
fn catalog(alloc: Global) -> Result<Vec<u8>, AllocError> {
    let mut payload = Vec::from_slice(alloc, &[0, 0, 0, 1])?;
    payload.extend_from_slice(&DEFINITION)?;
    payload.extend_from_slice(&[0])?;
    chain(alloc, &payload)
}

// The changes to roll back: connection 7 has put (5, 50) into table 1.
fn changes(alloc: Global) -> Result<Vec<u8>, AllocError> {
    let mut payload = Vec::from_slice(alloc, &[0, 1, 0, 7, 0, 0, 0, 1, 1, 0, 0, 0, 1])?;
    payload.extend_from_slice(&row(5, 50))?;
    chain(alloc, &payload)
}

fn rows(alloc: Global) -> Result<Vec<u8>, AllocError> {
    let mut page = Vec::from_slice(alloc, &[3, 0, 0, 3, 0, 0, 0, 0, 0, 0, 0, 0, 0, 0, 0, 0])?;
    for (key, value) in [(1, 10), (3, 30), (5, 50)] {
        page.extend_from_slice(&[0, 24, 0, 0, 0, 1])?;
        page.extend_from_slice(&row(key, value))?;
    }
    Ok(page)
}

// 5 pages of at most 65,536; 2 frames, which end at 120; the catalog at page 1, the changes at page 3, the first free page 4; the
// next table is 2.
fn header(alloc: Global) -> Result<Vec<u8>, AllocError> {
    let mut page = Vec::from_slice(alloc, b"WATSQL01")?;
    for number in [1, 4096, 65_536, 5, 0, 2, 0, 120, 1, 3, 4, 2u32] {
        page.extend_from_slice(&number.to_be_bytes())?;
    }
    Ok(page)
}

fn main_file(alloc: Global) -> Result<Vec<u8>, AllocError> {
    let mut main = Vec::new(alloc);
    let free = Vec::from_slice(alloc, &[4])?;
    for page in vec![in alloc;
        header(alloc)?,
        catalog(alloc)?,
        rows(alloc)?,
        changes(alloc)?,
        free,
    ]? {
        let end = main.len().saturating_add(PAGE);
        main.extend_from_slice(&page)?;
        main.resize(end, 0)?;
    }
    Ok(main)
}

// Two frames: the table is made, and connection 1 puts three rows in and commits.
fn log_file(alloc: Global) -> Result<Vec<u8>, AllocError> {
    let mut log = Vec::from_slice(alloc, &[0xa5, 0, 0, 0, 0x17, 5, 1])?;
    log.extend_from_slice(&DEFINITION)?;
    log.extend_from_slice(&[0xa5, 0, 0, 0, 87])?;
    for (key, value) in [(1, 10), (3, 30), (5, 50)] {
        log.extend_from_slice(&[1, 0, 1, 1, 0, 0, 0, 1])?;
        log.extend_from_slice(&row(key, value))?;
    }
    log.extend_from_slice(&[3, 0, 1, 0])?;
    Ok(log)
}

// Breaks in the file of that number what the faults say.
fn spoil(bytes: &mut Vec<u8>, number: usize, faults: &[Fault]) {
    for fault in faults {
        match *fault {
            Fault::Byte { file, at, byte } => {
                if file == number && at < bytes.len() {
                    bytes[at] = byte;
                }
            }
            Fault::Cut { file, len } => {
                if file == number {
                    bytes.truncate(len);
                }
            }
        }
    }
}

// A disk with these faults in its files, whose calls at these moments fail, and that has room for writes.
pub(crate) fn disk(alloc: Global, faults: &[Fault], fails: &[u64]) -> Result<MemoryDisk, Fail> {
    let mut main = main_file(alloc)?;
    spoil(&mut main, 0, faults);
    let mut before = Vec::from_slice(alloc, &[0])?;
    spoil(&mut before, 1, faults);
    let mut log = log_file(alloc)?;
    spoil(&mut log, 2, faults);
    let files = vec![in alloc; main, before, log]?;
    Ok(MemoryDisk::new(alloc, files, 10_000, fails.to_vec(alloc)?)?)
}

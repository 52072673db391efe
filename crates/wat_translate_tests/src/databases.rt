// Databases on disks in memory, scripts that are run over them, and what their logs are read back as.
use std::alloc::{AllocError, Global};
use std::test::Fail;
use wat_disk::{Disk, FileId, MemoryDisk};
use wat_io::{MemoryScripts, MemorySink};
use wat_tool::run_tool;
use wat_translate::translate;

/// The log of an empty database.
pub const EMPTY: &[u8] = &[0];

/// The calls and bytes that the disk has room for.
const ROOM: usize = 4194304;

/// A disk with these files. The call of this number fails.
pub fn disk_of(
    alloc: Global,
    main: &[u8],
    log: &[u8],
    fails: Option<u64>,
) -> Result<MemoryDisk, AllocError> {
    let main = Vec::from_slice(alloc, main)?;
    let log = Vec::from_slice(alloc, log)?;
    let files = vec![in alloc; main, Vec::new(alloc), log]?;
    let mut failing = Vec::new(alloc);
    if let Some(call) = fails {
        failing.push(call)?;
    }
    MemoryDisk::new(alloc, files, ROOM, failing)
}

fn log_of(alloc: Global, disk: &mut MemoryDisk) -> Result<Vec<u8>, Fail> {
    let length = disk.length(FileId(2))?;
    let mut log = vec![in alloc; 0; length as usize]?;
    disk.read(FileId(2), 0, log.as_mut_slice())?;
    Ok(log)
}

/// The log after the script was run over a database with this log.
pub fn log_after(alloc: Global, log: &[u8], script: &[u8]) -> Result<Vec<u8>, Fail> {
    let words = vec![in alloc;
        String::from_str(alloc, "run")?,
        String::from_str(alloc, "a.sql")?,
    ]?;
    let names = vec![in alloc; String::from_str(alloc, "a.sql")?]?;
    let texts = vec![in alloc; Vec::from_slice(alloc, script)?]?;
    let mut scripts = MemoryScripts::new(names, texts, Vec::new(alloc));
    let mut sink = MemorySink::new(alloc, 32768, Vec::new(alloc))?;
    let disk = disk_of(alloc, b"", log, None)?;
    let mut finish = run_tool(alloc, &words, &mut scripts, disk, &mut sink);
    if finish.status != 0 {
        return Err(Fail::from("the script was not run"));
    }
    log_of(alloc, &mut finish.disk)
}

/// What a log is read back as.
pub fn text_of(alloc: Global, log: &[u8]) -> Result<Vec<u8>, Fail> {
    let mut disk = disk_of(alloc, b"", log, None)?;
    match translate(alloc, &mut disk) {
        Ok(text) => Ok(text),
        Err(_) => Err(Fail::from("the log was not read back")),
    }
}

/// Whether the log is read back as this text, and the log of this text, run on an empty database, as the same one.
pub fn is_read_back(alloc: Global, log: &[u8], text: &str) -> Result<bool, Fail> {
    let first = text_of(alloc, log)?;
    if first.as_slice() != text.as_bytes() {
        return Ok(false);
    }
    let again = log_after(alloc, EMPTY, &first)?;
    let second = text_of(alloc, &again)?;
    Ok(second.as_slice() == text.as_bytes())
}

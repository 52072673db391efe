// A call of the program over what is made up here.
use std::alloc::{AllocError, Global};
use std::test::Fail;
use wat_disk::{Disk, FileId, MemoryDisk};
use wat_io::{MemoryScripts, MemorySink};
use wat_tool::{Finish, run_tool};

/// A table, three rows in one transaction, and what is in it.
pub const FIRST: &str =
    "CREATE TABLE t (k INTEGER PRIMARY KEY, v INTEGER); INSERT INTO t VALUES (1, 10); INSERT INTO t VALUES (3, 30); INSERT INTO t VALUES (5, 50); SELECT * FROM t; COMMIT;";

pub const FIRST_TEXT: &str =
    "connection 1\n1: created 1\n2: inserted 1\n3: inserted 1\n4: inserted 1\n5: rows 3\n(1, 10)\n(3, 30)\n(5, 50)\n6: committed 2\ncommits 2\n";

/// The log that it leaves: a frame of the table, and one of the rows with their Commit, whose gates are at 0 and 28.
pub const FIRST_LOG: [u8; 121] = [
    0xa5, 0, 0, 0, 23, 5, 1, 0, 0, 0, 1, 1, 116, 2, 1, 107, 1, 0, 0, 0, 1, 118, 1, 0, 0, 1, 1, 0,
    0xa5, 0, 0, 0, 87, 1, 0, 1, 1, 0, 0, 0, 1, 0, 2, 1, 0, 0, 0, 0, 0, 0, 0, 1, 1, 0, 0, 0, 0, 0,
    0, 0, 10, 1, 0, 1, 1, 0, 0, 0, 1, 0, 2, 1, 0, 0, 0, 0, 0, 0, 0, 3, 1, 0, 0, 0, 0, 0, 0, 0, 30,
    1, 0, 1, 1, 0, 0, 0, 1, 0, 2, 1, 0, 0, 0, 0, 0, 0, 0, 5, 1, 0, 0, 0, 0, 0, 0, 0, 50, 3, 0, 1,
    0,
];

/// The calls and bytes that the disk has room for.
const ROOM: usize = 8388608;

/// What a call is made over, and the numbers of the calls that fail.
#[derive(Clone, Copy)]
pub struct Around<'a> {
    pub log: &'a [u8],
    pub script: &'a [u8],
    pub read: Option<u64>,
    pub disk: Option<u64>,
    pub write: Option<u64>,
    pub room: u64,
}

/// A log and a script, of which no call fails.
pub fn over<'a>(log: &'a [u8], script: &'a [u8]) -> Around<'a> {
    Around {
        log,
        script,
        read: None,
        disk: None,
        write: None,
        room: 32768,
    }
}

pub fn words_of(alloc: Global, line: &str) -> Result<Vec<String>, AllocError> {
    let mut words = Vec::new(alloc);
    for word in line.split(' ') {
        words.push(String::from_str(alloc, word)?)?;
    }
    Ok(words)
}

fn list_of(alloc: Global, call: Option<u64>) -> Result<Vec<u64>, AllocError> {
    let mut calls = Vec::new(alloc);
    if let Some(call) = call {
        calls.push(call)?;
    }
    Ok(calls)
}

/// Scripts with this text under one name.
pub fn scripts_of(
    alloc: Global,
    text: &[u8],
    fails: Option<u64>,
) -> Result<MemoryScripts, AllocError> {
    let names = vec![in alloc; String::from_str(alloc, "a.sql")?]?;
    let texts = vec![in alloc; Vec::from_slice(alloc, text)?]?;
    Ok(MemoryScripts::new(names, texts, list_of(alloc, fails)?))
}

/// A disk with this log.
pub fn disk_of(alloc: Global, log: &[u8], fails: Option<u64>) -> Result<MemoryDisk, AllocError> {
    let log = Vec::from_slice(alloc, log)?;
    let files = vec![in alloc; Vec::new(alloc), Vec::new(alloc), log]?;
    MemoryDisk::new(alloc, files, ROOM, list_of(alloc, fails)?)
}

pub fn sink_of(alloc: Global, room: u64, fails: Option<u64>) -> Result<MemorySink, AllocError> {
    MemorySink::new(alloc, room, list_of(alloc, fails)?)
}

/// Whether the log of the disk reads so.
pub fn has_log(alloc: Global, disk: &mut MemoryDisk, log: &[u8]) -> Result<bool, Fail> {
    let length = disk.length(FileId(2))?;
    let mut held = vec![in alloc; 0; length as usize]?;
    disk.read(FileId(2), 0, held.as_mut_slice())?;
    Ok(held.as_slice() == log)
}

/// Makes the call over this disk, and whether it wrote this text comes second.
pub fn call_on(
    alloc: Global,
    line: &str,
    around: &Around,
    disk: MemoryDisk,
    text: &[u8],
) -> Result<(Finish<MemoryDisk>, bool), AllocError> {
    let words = words_of(alloc, line)?;
    let mut scripts = scripts_of(alloc, around.script, around.read)?;
    let mut sink = sink_of(alloc, around.room, around.write)?;
    let finish = run_tool(alloc, &words, &mut scripts, disk, &mut sink);
    Ok((finish, sink.bytes() == text))
}

/// Makes the call. Whether it ended with this status and text comes second.
pub fn call(
    alloc: Global,
    line: &str,
    around: &Around,
    status: u8,
    text: &[u8],
) -> Result<(MemoryDisk, bool), AllocError> {
    let disk = disk_of(alloc, around.log, around.disk)?;
    let (finish, wrote) = call_on(alloc, line, around, disk, text)?;
    let answered = wrote && finish.status == status;
    Ok((finish.disk, answered))
}

/// Whether the call ends with this status and text.
pub fn is_answered(
    alloc: Global,
    line: &str,
    around: &Around,
    status: u8,
    text: &[u8],
) -> Result<bool, AllocError> {
    let (_, answered) = call(alloc, line, around, status, text)?;
    Ok(answered)
}

/// Whether the call ends with this status and text, and leaves this log.
pub fn is_logged(
    alloc: Global,
    line: &str,
    around: &Around,
    status: u8,
    text: &[u8],
    log: &[u8],
) -> Result<bool, Fail> {
    let (mut disk, answered) = call(alloc, line, around, status, text)?;
    Ok(answered && has_log(alloc, &mut disk, log)?)
}

/// A call of this script over a database with this log.
pub fn played(
    alloc: Global,
    line: &str,
    log: &[u8],
    script: &str,
) -> Result<Finish<MemoryDisk>, AllocError> {
    let disk = disk_of(alloc, log, None)?;
    let (finish, _) = call_on(alloc, line, &over(log, script.as_bytes()), disk, b"")?;
    Ok(finish)
}

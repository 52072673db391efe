// Logs of transactions, as bytes.
use crate::calls::FIRST_LOG;
use std::alloc::Global;
use std::test::Fail;
use wat_commit_log::{OpenWhy, open, restart_laws, writing_law};
use wat_disk::MemoryDisk;

// The records of a table t (k INTEGER PRIMARY KEY, v INTEGER), of the row (1, 10) in it, and of a Commit.
const TABLE: [u8; 23] = [
    5, 1, 0, 0, 0, 1, 1, 116, 2, 1, 107, 1, 0, 0, 0, 1, 118, 1, 0, 0, 1, 1, 0,
];

const ROW: [u8; 31] = [
    1, 0, 1, 1, 0, 0, 0, 1, 0, 2, 1, 0, 0, 0, 0, 0, 0, 0, 1, 1, 0, 0, 0, 0, 0, 0, 0, 10, 3, 0, 1,
];

// A disk whose log has these bytes, and whose calls at these moments fail.
fn disk_of(alloc: Global, log: &[u8], fails: &[u64]) -> Result<MemoryDisk, Fail> {
    let mut files = Vec::new(alloc);
    files.push(Vec::new(alloc))?;
    files.push(Vec::new(alloc))?;
    files.push(log.to_vec(alloc)?)?;
    Ok(MemoryDisk::new(alloc, files, 64, fails.to_vec(alloc)?)?)
}

fn why(alloc: Global, log: &[u8], fails: &[u64]) -> Result<Option<OpenWhy>, Fail> {
    let mut disk = disk_of(alloc, log, fails)?;
    Ok(open(alloc, &mut disk).err())
}

fn add_frame(log: &mut Vec<u8>, body: &[u8]) -> Result<(), Fail> {
    let len = u32::try_from(body.len()).ok().ok_or("len")?;
    log.push(0xA5)?;
    log.extend_from_slice(&len.to_be_bytes())?;
    log.extend_from_slice(body)?;
    Ok(())
}

// Why a log of frames with these bodies was not opened.
fn why_of(alloc: Global, bodies: &[&[u8]]) -> Result<Option<OpenWhy>, Fail> {
    let mut log = Vec::new(alloc);
    for body in bodies {
        add_frame(&mut log, body)?;
    }
    log.push(0)?;
    why(alloc, &log, &[])
}

#[test]
fn a_log_gives_its_tables(rt: HostRuntime) -> Result<(), Fail> {
    restart_laws();
    writing_law();
    let mut disk = disk_of(rt.alloc(), &FIRST_LOG, &[])?;
    let opened = open(rt.alloc(), &mut disk).ok().ok_or("open")?;
    assert_eq!(rt; opened.tables.schema().next(), 2);
    assert_eq!(rt; opened.tables.table("t").ok_or("t")?.rows().count(), 3);
    assert!(rt; opened.tables.table("u").is_none());
    Ok(())
}

#[test]
fn a_log_that_is_cut_is_damaged_at_a_gate(rt: HostRuntime) -> Result<(), Fail> {
    let empty = why(rt.alloc(), &[], &[])?;
    assert_eq!(rt; empty, Some(OpenWhy::NoDatabase));
    for end in 1..121 {
        let at = if end < 29 { 0 } else { 28 };
        let cut = why(rt.alloc(), &FIRST_LOG[..end], &[])?;
        assert_eq!(rt; cut, Some(OpenWhy::Damaged { at }), "cut at {end}");
    }
    Ok(())
}

#[test]
fn what_is_no_transaction_is_refused_at_its_frame(rt: HostRuntime) -> Result<(), Fail> {
    let alloc = rt.alloc();
    let both = why_of(alloc, &[&TABLE, &ROW])?;
    assert_eq!(rt; both, None);
    let bodies: [&[u8]; 9] = [
        // The table again, and the row without its Commit.
        &TABLE,
        &ROW[..28],
        // A Commit alone, one of connection 2, and a Rollback.
        &[3, 0, 1],
        &[
            1, 0, 1, 1, 0, 0, 0, 1, 0, 2, 1, 0, 0, 0, 0, 0, 0, 0, 1, 1, 0, 0, 0, 0, 0, 0, 0, 10, 3,
            0, 2,
        ],
        &[4, 0, 1],
        // A row that is not there, a row of a table that is not there, and one that does not fit.
        &[
            1, 0, 1, 3, 0, 0, 0, 1, 0, 2, 1, 0, 0, 0, 0, 0, 0, 0, 1, 1, 0, 0, 0, 0, 0, 0, 0, 10, 3,
            0, 1,
        ],
        &[
            1, 0, 1, 1, 0, 0, 0, 2, 0, 2, 1, 0, 0, 0, 0, 0, 0, 0, 1, 1, 0, 0, 0, 0, 0, 0, 0, 10, 3,
            0, 1,
        ],
        &[
            1, 0, 1, 1, 0, 0, 0, 1, 0, 2, 0, 1, 0, 0, 0, 0, 0, 0, 0, 10, 3, 0, 1,
        ],
        // A schema change with a Commit.
        &[5, 2, 0, 0, 0, 1, 3, 0, 1],
    ];
    for body in &bodies {
        let found = why_of(alloc, &[&TABLE, body])?;
        assert_eq!(rt; found, Some(OpenWhy::Damaged { at: 28 }), "{body:?}");
    }
    let twice = why_of(alloc, &[&TABLE, &ROW, &ROW])?;
    assert_eq!(rt; twice, Some(OpenWhy::Damaged { at: 64 }), "a row twice");
    let before = why_of(alloc, &[&ROW, &TABLE])?;
    assert_eq!(rt;
        before,
        Some(OpenWhy::Damaged { at: 0 }),
        "a row before its table"
    );
    Ok(())
}

#[test]
fn a_call_that_fails_is_a_fault(rt: HostRuntime) -> Result<(), Fail> {
    // The calls are: a length; a length and five reads of gates; a length and three reads of each frame.
    for call in 0..15 {
        let answer = why(rt.alloc(), &FIRST_LOG, &[call])?;
        assert_eq!(rt; answer, Some(OpenWhy::DiskFault), "call {call}");
    }
    let answer = why(rt.alloc(), &FIRST_LOG, &[15])?;
    assert_eq!(rt; answer, None, "there is no sixteenth call");
    Ok(())
}

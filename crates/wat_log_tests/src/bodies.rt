// Bodies that spell no records are told, and leave what was read before.
use crate::steps::{Refused, disk_of, kinds};
use std::alloc::Global;
use std::test::Fail;
use wat_disk::Disk;
use wat_gate::GatePlace;
use wat_list::Items;
use wat_log::Log;
use wat_record::LogRecords;

// What frame i answers, behind the records of frame 0, and how many records are there then.
fn answer<D: Disk>(alloc: Global, disk: &mut D, i: u64) -> Result<(bool, usize), Refused> {
    let log = Log::open(alloc, disk)?;
    let mut records = Items::new(alloc);
    if i >= log.frames() || !log.records(disk, 0, &mut records)? {
        return Err(Refused::Other);
    }
    let read = log.records(disk, i, &mut records)?;
    Ok((read, records.len()))
}

// A commit and a rollback, and then a body of this first and the last byte.
fn log_of(alloc: Global, body: &[u8]) -> Result<Vec<u8>, Fail> {
    let mut bytes = Vec::from_slice(alloc, &[0xa5, 0, 0, 0, 6, 3, 0, 1, 4, 0, 2, 0xa5, 0, 0, 0])?;
    bytes.push(body.len().min(255) as u8)?;
    bytes.extend_from_slice(body)?;
    bytes.push(0)?;
    Ok(bytes)
}

#[test]
fn a_body_that_spells_no_records_adds_none(rt: HostRuntime) -> Result<(), Fail> {
    let cases: [(&[u8], bool, usize); 8] = [
        (&[3, 0, 1], true, 3),
        (&[4, 0, 1, 3, 0, 1, 2, 0, 1, 0, 0, 0, 0], true, 5),
        (&[0], false, 2),
        (&[3, 0], false, 2),
        (&[3, 0, 1, 3], false, 2),
        (&[3, 0, 1, 6, 0, 1], false, 2),
        (&[3, 0, 1, 3, 0, 2, 1, 0, 1, 4], false, 2),
        (&[5, 3, 0], false, 2),
    ];
    for (body, read, len) in cases {
        let mut disk = disk_of(rt.alloc(), &log_of(rt.alloc(), body)?, 0, &[])?;
        let got = answer(rt.alloc(), &mut disk, 1);
        assert_eq!(rt; got, Ok((read, len)), "{body:?}");
    }
    Ok(())
}

// After a fault of the disk what was read before stands too: opening takes six calls, each frame up to seven.
#[test]
fn a_fault_adds_no_records(rt: HostRuntime) -> Result<(), Fail> {
    for moment in 0..18 {
        let mut disk = disk_of(rt.alloc(), &log_of(rt.alloc(), &[3, 0, 1])?, 0, &[moment])?;
        let got = answer(rt.alloc(), &mut disk, 1);
        assert_eq!(rt; got, Err(Refused::DiskFault), "{moment}");
    }
    let mut disk = disk_of(rt.alloc(), &log_of(rt.alloc(), &[3, 0, 1])?, 0, &[18])?;
    let got = answer(rt.alloc(), &mut disk, 1);
    assert_eq!(rt; got, Ok((true, 3)));
    Ok(())
}

// Reads the first frame at its gate, and answers the next gate.
fn first<D: Disk>(alloc: Global, disk: &mut D) -> Result<Option<GatePlace>, Refused> {
    let log = Log::open(alloc, disk)?;
    let mut records: LogRecords = Items::new(alloc);
    if log.frames() == 0 {
        return Err(Refused::Other);
    }
    let next = log.records_at(disk, GatePlace { gate: 0, at: 0 }, &mut records)?;
    let read = kinds(alloc, &records)?;
    if read.as_slice() == [('k', 1), ('r', 2)].as_slice() {
        Ok(next)
    } else {
        Err(Refused::Other)
    }
}

#[test]
fn a_frame_is_read_at_its_gate(rt: HostRuntime) -> Result<(), Fail> {
    let mut disk = disk_of(rt.alloc(), &log_of(rt.alloc(), &[3, 0, 1])?, 0, &[])?;
    let next = first(rt.alloc(), &mut disk);
    assert_eq!(rt; next, Ok(Some(GatePlace { gate: 1, at: 11 })));
    Ok(())
}

#[test]
fn a_broken_log_is_damaged_at_its_gate(rt: HostRuntime) -> Result<(), Fail> {
    let cases: [(&[u8], u64); 4] = [
        (&[], 0),
        (&[0xa5, 0, 0, 0, 3, 3, 0, 1], 0),
        (&[0xa5, 0, 0, 0, 3, 3, 0, 1, 0xa5], 8),
        (&[0xa5, 0, 0, 0, 0, 0], 0),
    ];
    for (bytes, at) in cases {
        let mut disk = disk_of(rt.alloc(), bytes, 0, &[])?;
        let opened = Log::open(rt.alloc(), &mut disk);
        assert_eq!(rt;
            opened.map(|log| log.frames()).map_err(Refused::from),
            Err(Refused::Damaged { at })
        );
    }
    Ok(())
}

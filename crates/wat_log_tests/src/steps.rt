// Steps over a log, one after another, and what is read of its file after them.
ghost use Rattle.std.specs.Prelude.{◌≡◌, ◌<◌, OnOk};
ghost use Rattle.wat_log.specs.Log.{IsOpenLog, gate_of, log_frames};

use crate::entries::{Entry, kind_of, record_of};
use std::alloc::{AllocError, Global};
use wat_disk::{Disk, DiskFault, MemoryDisk};
use wat_gate::GateRefusal;
use wat_list::Items;
use wat_log::Log;
use wat_record::{LogRecords, write_record};

// Why steps stopped.
#[derive(Clone, Copy, Debug, PartialEq, Eq)]
pub enum Refused {
    DiskFault,
    Damaged { at: u64 },
    Memory,
    // A record is too long, or too much is noted.
    Other,
}

impl From<AllocError> for Refused {
    fn from(_: AllocError) -> Self {
        Refused::Memory
    }
}

impl From<DiskFault> for Refused {
    fn from(_: DiskFault) -> Self {
        Refused::DiskFault
    }
}

impl From<GateRefusal> for Refused {
    fn from(refusal: GateRefusal) -> Self {
        match refusal {
            GateRefusal::DiskFault => Refused::DiskFault,
            GateRefusal::Damaged { at } => Refused::Damaged { at },
            GateRefusal::Memory => Refused::Memory,
        }
    }
}

#[derive(Clone, Copy, Debug)]
pub enum Step {
    Note(Entry),
    Flush,
    Commit { conn: u16 },
}

// A disk whose log has these bytes, with room for so many bytes and calls, and whose calls at these moments fail.
pub fn disk_of(
    alloc: Global,
    log: &[u8],
    room: usize,
    fails: &[u64],
) -> Result<MemoryDisk, AllocError> {
    let files = vec![in alloc; Vec::new(alloc), Vec::new(alloc), log.to_vec(alloc)?]?;
    MemoryDisk::new(alloc, files, room, fails.to_vec(alloc)?)
}

fn note(alloc: Global, log: &mut Log, entry: Entry) -> Result<(), Refused>
    ensures { OnOk result (gate_of log.new ≡ gate_of log.old) }
{
    let record = record_of(alloc, entry)?;
    let mut bytes = Vec::new(alloc);
    write_record(&record, &mut bytes)?;
    if bytes.len() > 900_000 || log.buffered() > 1_048_576 {
        return Err(Refused::Other);
    }
    log.note(&record)?;
    Ok(())
}

fn commit<D: Disk>(disk: &mut D, log: &mut Log, conn: u16) -> Result<(), Refused>
    requires { D.tells_content → IsOpenLog (D.told disk.old) log.old }
    ensures { D.tells_content → OnOk result (IsOpenLog (D.told disk.new) log.new) }
{
    log.reserve()?;
    log.commit(disk, conn)?;
    Ok(())
}

pub fn take<D: Disk>(alloc: Global, disk: &mut D, log: &mut Log, step: Step) -> Result<(), Refused>
    requires { D.tells_content → IsOpenLog (D.told disk.old) log.old }
    ensures { D.tells_content → OnOk result (IsOpenLog (D.told disk.new) log.new) }
{
    match step {
        Step::Note(entry) => note(alloc, log, entry)?,
        Step::Flush => log.flush(disk)?,
        Step::Commit { conn } => commit(disk, log, conn)?,
    }
    Ok(())
}

// Opens the log, and takes these steps.
pub fn play<D: Disk>(alloc: Global, disk: &mut D, steps: &[Step]) -> Result<(), Refused> {
    let mut log = Log::open(alloc, disk)?;
    for step in steps {
        take(alloc, disk, &mut log, *step)?;
    }
    Ok(())
}

// The kinds of these records.
pub fn kinds(alloc: Global, records: &LogRecords) -> Result<Vec<(char, u16)>, AllocError> {
    let mut kinds = Vec::new(alloc);
    for record in records.as_slice() {
        kinds.push(kind_of(record))?;
    }
    Ok(kinds)
}

// The kinds of the records of all frames.
pub fn read_back<D: Disk>(alloc: Global, disk: &mut D) -> Result<Vec<(char, u16)>, Refused> {
    let log = Log::open(alloc, disk)?;
    let mut records = Items::new(alloc);
    for i in 0..log.frames() {
        if !log.records(disk, i, &mut records)? {
            return Err(Refused::Other);
        }
    }
    Ok(kinds(alloc, &records)?)
}

ghost use Rattle.std.specs.Prelude.{◌≡◌, ◌+◌, ◌*◌, ◌<◌, ◌^◌, [], take, length, OnOk, IfOk, IfErr};
ghost use Rattle.wat_disk.specs.Disk.{SameFiles, EachStop, MakesCalls};
ghost use Rattle.wat_faults.specs.Faults.{HasCause, Rose};
ghost use Rattle.wat_schema.specs.Catalog.{empty_catalog};
ghost use Rattle.wat_schema.specs.Tables.{no_tables};
ghost use Rattle.wat_gate.specs.GateLog.{file_of, frames_of, bodies_in, IsLogOf, IsGateOf};
ghost use Rattle.wat_commit_log.specs.Logged.{log_file, Restarts};
ghost use Rattle.wat_commit_log.specs.Opening.{AreBodies, MayOpen};
ghost use Rattle.wat_commit_log.specs.Opened.{answer_of, why_from, IsOpened};
ghost use Rattle.wat_commit_log.specs.Reading.{MayRefuse};

use crate::reading::read_body;
use std::alloc::Global;
use wat_disk::{Disk, DiskError, FileId};
use wat_gate::{GateLog, GatePlace, GateRefusal};
use wat_list::NoMemory;
use wat_schema::Schema;
use wat_tables::Tables;

/// The file of the log.
pub const LOG: FileId = FileId(2);

/// Why the log was not opened.
#[derive(Clone, Copy, Debug, PartialEq, Eq)]
pub enum OpenWhy {
    /// The file is empty.
    NoDatabase,
    /// From this place on the bytes are no log of transactions that apply one after another.
    Damaged { at: u64 },
    /// A call on the disk has failed.
    DiskFault,
    Memory,
}

/// The opened log, and the tables that restart gives.
#[derive(Drop)]
pub struct Opened {
    pub log: GateLog,
    pub tables: Tables,
}

fn why_of(refusal: GateRefusal) -> OpenWhy
    ensures { result ≡ why_from refusal }
{
    match refusal {
        GateRefusal::DiskFault => OpenWhy::DiskFault,
        GateRefusal::Damaged { at } => OpenWhy::Damaged { at },
        GateRefusal::Memory => OpenWhy::Memory,
    }
}

fn tables_of_none(alloc: Global, schema: &Schema) -> Result<Tables, NoMemory>
    requires { schema.now ≡ empty_catalog }
    ensures { IfOk result (λ tables. tables ≡ no_tables) }
{
    match Tables::of(alloc, schema) {
        Ok(tables) => Ok(tables),
        Err(error) => Err(error),
    }
}

fn no_tables(alloc: Global) -> Result<Tables, NoMemory>
    ensures { IfOk result (λ tables. tables ≡ no_tables) }
{
    tables_of_none(alloc, &Schema::new(alloc))
}

/// Makes the transaction of the frame at a gate, and answers the next gate. `body` is room for the frame's body.
fn read_frame<D: Disk>(
    alloc: Global,
    disk: &mut D,
    log: &GateLog,
    place: GatePlace,
    body: &mut Vec<u8>,
    tables: &mut Tables,
) -> Result<GatePlace, OpenWhy>
    requires known { D.tells_content → IsLogOf (D.told disk.old) log.now }
    requires place { D.tells_content → IsGateOf (D.told disk.old) log.now place }
    requires frame { place.gate < frames_of log.now }
    requires so_far { D.tells_content → AreBodies (take place.gate (bodies_in (D.told disk.old) log.now)) tables.old }

    ensures read { D.tells_content → IfOk result (λ next. AreBodies (take next.gate (bodies_in (D.told disk.new) log.now)) tables.new) }
    ensures next { D.tells_content → IfOk result (λ next. IsGateOf (D.told disk.new) log.now next) }
    ensures one_more { IfOk result (λ next. next.gate ≡ place.gate + 1) }
    ensures refused { IfErr result (MayRefuse D.tells_content ((D.told disk.old).content (file_of log.now)) (Rose (D.told disk.old).faults (D.told disk.new).faults)) }

    ensures content { SameFiles (D.told disk.old).content (D.told disk.new).content }
    ensures stops { EachStop (D.told disk.old) (D.told disk.new) SameFiles }
    ensures calls { OnOk result (MakesCalls 4 (D.told disk.old) (D.told disk.new)) }
    ensures cause { HasCause (D.told disk.old).faults (D.told disk.new).faults (result ≡ Err OpenWhy.DiskFault) }
{
    body.clear();
    let next = match log.frame_at(disk, place, body) {
        Ok(next) => next,
        Err(refusal) => return Err(why_of(refusal)),
    };
    match read_body(alloc, body, tables) {
        Ok(true) => Ok(next),
        Ok(false) => Err(OpenWhy::Damaged { at: place.at }),
        Err(_) => Err(OpenWhy::Memory),
    }
}

/// The tables that all frames make in order, one body in memory at a time.
fn read_frames<D: Disk>(alloc: Global, disk: &mut D, log: &GateLog) -> Result<Tables, OpenWhy>
    requires { D.tells_content → IsLogOf (D.told disk.old) log.now }

    ensures restarts { D.tells_content → IfOk result (Restarts ((D.told disk.old).content (file_of log.now))) }
    ensures refused { IfErr result (MayRefuse D.tells_content ((D.told disk.old).content (file_of log.now)) (Rose (D.told disk.old).faults (D.told disk.new).faults)) }

    ensures content { SameFiles (D.told disk.old).content (D.told disk.new).content }
    ensures stops { EachStop (D.told disk.old) (D.told disk.new) SameFiles }
    ensures calls { (D.told disk.old).moment < 2 ^ 64 → OnOk result (MakesCalls (4 * frames_of log.now) (D.told disk.old) (D.told disk.new)) }
    ensures cause { HasCause (D.told disk.old).faults (D.told disk.new).faults (result ≡ Err OpenWhy.DiskFault) }
{
    let Ok(mut tables) = no_tables(alloc) else {
        return Err(OpenWhy::Memory);
    };
    let mut body = Vec::new(alloc);
    let mut place = GatePlace { gate: 0, at: 0 };
    while place.gate < log.frames() {
        place = match read_frame(alloc, disk, log, place, &mut body, &mut tables) {
            Ok(next) => next,
            Err(why) => return Err(why),
        };
    }
    Ok(tables)
}

/// Opens the log and makes its transactions, in time linear in its bytes but for the maps of the rows. It writes nothing.
///
/// A gate log that is broken is `Damaged` at its broken gate, and else at the gate of the first frame whose body is no
/// transaction, or one that doesn't apply.
pub fn open<D: Disk>(alloc: Global, disk: &mut D) -> Result<Opened, OpenWhy>
    ensures answer { MayOpen D.tells_content ((D.told disk.old).content log_file) (Rose (D.told disk.old).faults (D.told disk.new).faults) (answer_of result) }
    ensures opened { D.tells_content → IfOk result (IsOpened (D.told disk.new)) }
    ensures file { IfOk result (λ opened. file_of opened.log ≡ log_file) }
    ensures content { SameFiles (D.told disk.old).content (D.told disk.new).content }
    ensures stops { EachStop (D.told disk.old) (D.told disk.new) SameFiles }
    // Its calls are three, and six more for each frame.
    ensures calls { IfOk result (λ opened. MakesCalls (6 * frames_of opened.log + 3) (D.told disk.old) (D.told disk.new)) }
    ensures cause { HasCause (D.told disk.old).faults (D.told disk.new).faults (result ≡ Err OpenWhy.DiskFault) }
{
    match disk.length(LOG) {
        Ok(0) => return Err(OpenWhy::NoDatabase),
        Ok(_) => {}
        Err(DiskError::Memory) => return Err(OpenWhy::Memory),
        Err(_) => return Err(OpenWhy::DiskFault),
    }
    let log = match GateLog::open(disk, LOG) {
        Ok(log) => log,
        Err(refusal) => return Err(why_of(refusal)),
    };
    match read_frames(alloc, disk, &log) {
        Ok(tables) => Ok(Opened { log, tables }),
        Err(why) => Err(why),
    }
}

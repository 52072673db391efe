// The log is opened, and compared with the header.
ghost use Rattle.std.specs.Prelude.{◌≡◌, ◌≢◌, ◌↔◌, ◌<◌, ◌≤◌, [], ℕ, IsTrue, OnOk, IfOk, IfErr};
ghost use Rattle.wat_disk.specs.Disk.{SameFiles, EachStop};
ghost use Rattle.wat_faults.specs.Faults.{HasCause};
ghost use Rattle.wat_images.specs.Refusal.{IfDamaged, IfPageLimit};
ghost use Rattle.wat_gate.specs.declared.gate_log.GateRefusal.TheVariants as gates;
ghost use Rattle.wat_pages.specs.Header.{head_of};
ghost use Rattle.wat_log.specs.Log.{IsOpenLog, log_file, noted_bytes};
ghost use Rattle.wat_files.specs.Formed.{HasLog, LogStops};

use std::alloc::Global;
use wat_disk::{Disk, FileId};
use wat_gate::GateRefusal;
use wat_log::Log;
use wat_pages::{Header, PageRefusal};

/// A place of the log that isn't as it should be.
fn broken(at: u64) -> PageRefusal
    ensures place { IfDamaged result (λ file place. (file ≡ 2) × (place ≡ at)) }
    ensures limited { IfPageLimit result (λ count limit. ⊥) }
    ensures fault { result ≢ PageRefusal.DiskFault }
{
    PageRefusal::Damaged {
        file: FileId(2),
        at,
    }
}

/// A refusal of the log, as one of its file.
fn of_log(refusal: GateRefusal) -> PageRefusal
    ensures place { IfDamaged result (λ file at. (file ≡ 2) × (refusal ≡ gates.Damaged at)) }
    ensures limited { IfPageLimit result (λ count limit. ⊥) }
    ensures fault { (result ≡ PageRefusal.DiskFault) ↔ (refusal ≡ GateRefusal.DiskFault) }
{
    match refusal {
        GateRefusal::DiskFault => PageRefusal::DiskFault,
        GateRefusal::Damaged { at } => broken(at),
        GateRefusal::Memory => PageRefusal::Memory,
    }
}

fn least(a: u64, b: u64) -> u64
    ensures at_most { result ≤ b }
    ensures first { a ≤ b → result ≡ a }
    ensures second { b < a → result ≡ b }
{
    if a <= b { a } else { b }
}

/// Whether so many frames are as many as the header counts at least, and the header has this place.
fn agrees(header: &Header, frames: u64, at: u64) -> bool
    ensures { IsTrue result ↔ ((header.now.frames ≤ frames) × (at ≡ header.now.place)) }
{
    header.frames <= frames && at == header.place
}

/// Whether the log has the frames that the header counts, and the header the place of the gate behind them.
fn check_header<D: Disk>(disk: &mut D, log: &Log, header: &Header) -> Result<(), PageRefusal>
    requires known { D.tells_content → IsOpenLog (D.told disk.old) log.now }

    ensures has { D.tells_content → (limit count free : ℕ) → OnOk result (HasLog ((D.told disk.old).content log_file) (head_of header.now limit count free)) }
    ensures damaged { D.tells_content → (limit count free : ℕ) → IfErr result (λ refusal. IfDamaged refusal (λ file at. (file ≡ 2) × LogStops ((D.told disk.old).content log_file) (head_of header.now limit count free) at)) }
    ensures known { D.tells_content → IsOpenLog (D.told disk.new) log.now }
    ensures limited { IfErr result (λ refusal. IfPageLimit refusal (λ count limit. ⊥)) }
    ensures content { SameFiles (D.told disk.old).content (D.told disk.new).content }
    ensures stops { EachStop (D.told disk.old) (D.told disk.new) SameFiles }
    ensures cause { HasCause (D.told disk.old).faults (D.told disk.new).faults (result ≡ Err PageRefusal.DiskFault) }
{
    let frames = log.frames();
    let at = match log.place(disk, least(header.frames, frames)) {
        Ok(at) => at,
        Err(refusal) => return Err(of_log(refusal)),
    };
    if !agrees(header, frames, at) {
        return Err(broken(at));
    }
    Ok(())
}

/// Opens the log of a database that has this header, with nothing noted.
///
/// `Damaged` tells the gate at which it is broken as a gate log; or the last one, where it has fewer frames than the header
/// counts; or the gate behind these, where the header has another place.
pub(crate) fn open_log<D: Disk>(
    alloc: Global,
    disk: &mut D,
    header: &Header,
) -> Result<Log, PageRefusal>
    ensures has { D.tells_content → (limit count free : ℕ) → IfOk result (λ log. HasLog ((D.told disk.old).content log_file) (head_of header.now limit count free)) }
    ensures damaged { D.tells_content → (limit count free : ℕ) → IfErr result (λ refusal. IfDamaged refusal (λ file at. (file ≡ 2) × LogStops ((D.told disk.old).content log_file) (head_of header.now limit count free) at)) }
    ensures known { D.tells_content → IfOk result (IsOpenLog (D.told disk.new)) }
    ensures noted { IfOk result (λ log. noted_bytes log ≡ []) }
    ensures limited { IfErr result (λ refusal. IfPageLimit refusal (λ count limit. ⊥)) }
    ensures content { SameFiles (D.told disk.old).content (D.told disk.new).content }
    ensures stops { EachStop (D.told disk.old) (D.told disk.new) SameFiles }
    ensures cause { HasCause (D.told disk.old).faults (D.told disk.new).faults (result ≡ Err PageRefusal.DiskFault) }
{
    let log = match Log::open(alloc, disk) {
        Ok(log) => log,
        Err(refusal) => return Err(of_log(refusal)),
    };
    match check_header(disk, &log, header) {
        Ok(()) => Ok(log),
        Err(refusal) => Err(refusal),
    }
}

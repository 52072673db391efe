// The records past the checkpoint are made again, frame by frame.
ghost use Rattle.std.specs.Prelude.{◌≡◌, ◌≢◌, ◌<◌, ◌+◌, None, Err, drop, IfOk, IfErr, OnOk, MatchBool};
ghost use Rattle.std.specs.List.{AllByRecursion};
ghost use Rattle.wat_faults.specs.Faults.{HasCause};
ghost use Rattle.wat_gate.specs.Bodies.{bodies};
ghost use Rattle.wat_gate.specs.GateLog.{IsGateOf, body_at};
ghost use Rattle.wat_restore.specs.Head.{Head};
ghost use Rattle.wat_images.specs.Refusal.{IfDamaged, IfPageLimit};
ghost use Rattle.wat_log_record.specs.Encoding.{IsWritable};
ghost use Rattle.wat_log.specs.Log.{IsOpenLog, gate_of, log_frames, log_file};
ghost use Rattle.wat_replay.specs.State.{State, IsLawful};
ghost use Rattle.wat_replay.specs.Replay.{AppliesAll};
ghost use Rattle.wat_recover.specs.Goes.{Answers};
ghost use Rattle.wat_files.specs.Formed.{AppliesBody, AppliesBodies, FailsInRecords};
ghost use Rattle.wat_repeating.specs.OnPages.{told_of, refusal_of, Stands, Moves, IsFull};
ghost use Rattle.wat_repeating.specs.Repeated.{StopsThere};

use crate::OnPages;
use crate::writable::is_writable;
use std::alloc::Global;
use wat_disk::{Disk, FileId};
use wat_gate::GatePlace;
use wat_list::Items;
use wat_log::Log;
use wat_log_record::LogRecord;
use wat_pages::PageRefusal;
use wat_recover::apply_to;

/// Makes one record again, and answers whether it applies. A record that no log can have does not.
pub(crate) fn repeat_record<D: Disk>(
    alloc: Global,
    on: &mut OnPages<D>,
    entry: &LogRecord,
) -> Result<bool, PageRefusal>
    requires going { refusal_of on.old ≡ None }
    ensures answers { IsWritable entry.now → (s : State) → Stands on.old s → IsLawful s → IfOk result (λ applied. Answers (Stands on.new) entry.now s applied) }
    ensures undamaged { (s : State) → Stands on.old s → IsLawful s → IfErr result (λ refusal. IfDamaged refusal (λ file at. ⊥)) }
    ensures going { OnOk result (refusal_of on.new ≡ None) }
    ensures moves { Moves on.old on.new }
    ensures limited { IfErr result (λ refusal. IfPageLimit refusal IsFull) }
    ensures cause { HasCause (told_of on.old).faults (told_of on.new).faults (result ≡ Err PageRefusal.DiskFault) }
{
    if !is_writable(entry) {
        return Ok(false);
    }
    let applied = match apply_to(alloc, on, entry) {
        Ok(applied) => applied,
        Err(error) => return Err(on.cause(error)),
    };
    match on.refusal() {
        None => Ok(applied),
        Some(refusal) => Err(refusal),
    }
}

/// Makes the records again, one after another, and answers whether all of them apply.
fn repeat_records<D: Disk>(
    alloc: Global,
    on: &mut OnPages<D>,
    entries: &[LogRecord],
) -> Result<bool, PageRefusal>
    requires going { refusal_of on.old ≡ None }
    ensures answers { AllByRecursion IsWritable entries.now → (s : State) → Stands on.old s → IsLawful s → IfOk result (λ applied. MatchBool applied ((now : State) × AppliesAll entries.now s now × Stands on.new now) ((now : State) → AppliesAll entries.now s now → ⊥)) }
    ensures undamaged { AllByRecursion IsWritable entries.now → (s : State) → Stands on.old s → IsLawful s → IfErr result (λ refusal. IfDamaged refusal (λ file at. ⊥)) }
    ensures going { OnOk result (refusal_of on.new ≡ None) }
    ensures moves { Moves on.old on.new }
    ensures limited { IfErr result (λ refusal. IfPageLimit refusal IsFull) }
    ensures cause { HasCause (told_of on.old).faults (told_of on.new).faults (result ≡ Err PageRefusal.DiskFault) }
{
    for entry in entries {
        match repeat_record(alloc, on, entry) {
            Ok(true) => {}
            Ok(false) => return Ok(false),
            Err(refusal) => return Err(refusal),
        }
    }
    Ok(true)
}

/// A frame whose records can't be made.
fn broken(at: u64) -> PageRefusal
    ensures place { IfDamaged result (λ file place. (file ≡ 2) × (place ≡ at)) }
    ensures limited { IfPageLimit result (λ count limit. ⊥) }
    ensures fault { result ≢ PageRefusal.DiskFault }
{
    PageRefusal::Damaged {
        file: FileId(2),
        at,
    }
}

/// Makes the records of the frame at a gate of the log again, and answers the next gate. `Damaged` tells this frame, where it
/// spells no records or one of them doesn't apply.
fn repeat_frame<D: Disk>(
    alloc: Global,
    on: &mut OnPages<D>,
    log: &Log,
    place: GatePlace,
) -> Result<GatePlace, PageRefusal>
    requires log { D.tells_content → IsOpenLog (told_of on.old) log.now }
    requires place { D.tells_content → IsGateOf (told_of on.old) (gate_of log.now) place }
    requires frame { place.gate < log_frames log.now }
    requires going { refusal_of on.old ≡ None }
    ensures repeated { (s : State) → Stands on.old s → IsLawful s → OnOk result ((next : State) × AppliesBody (body_at (told_of on.old) (gate_of log.now) place.gate) s next × Stands on.new next) }
    ensures damaged { (s : State) → Stands on.old s → IsLawful s → IfErr result (λ refusal. IfDamaged refusal (StopsThere place.at (body_at (told_of on.old) (gate_of log.now) place.gate) s)) }
    ensures next { D.tells_content → IfOk result (IsGateOf (told_of on.new) (gate_of log.now)) }
    ensures one_more { IfOk result (λ gate. gate.gate ≡ place.gate + 1) }
    ensures going { OnOk result (refusal_of on.new ≡ None) }
    ensures moves { Moves on.old on.new }
    ensures limited { IfErr result (λ refusal. IfPageLimit refusal IsFull) }
    ensures cause { HasCause (told_of on.old).faults (told_of on.new).faults (result ≡ Err PageRefusal.DiskFault) }
{
    let mut entries = Items::new(alloc);
    let next = match on.read_frame(log, place, &mut entries) {
        Ok(Some(next)) => next,
        Ok(None) => return Err(broken(place.at)),
        Err(refusal) => return Err(refusal),
    };
    match repeat_records(alloc, on, entries.as_slice()) {
        Ok(true) => Ok(next),
        Ok(false) => Err(broken(place.at)),
        Err(refusal) => Err(refusal),
    }
}

/// Makes the records of the log again, from a gate on, on pages that hold a lawful state: that behind the records before the gate.
/// They then hold the state behind the last record.
///
/// `Damaged` tells the first frame that spells no records, or has one that doesn't apply.
pub fn repeat<D: Disk>(
    alloc: Global,
    on: &mut OnPages<D>,
    log: &Log,
    from: GatePlace,
) -> Result<(), PageRefusal>
    requires log { D.tells_content → IsOpenLog (told_of on.old) log.now }
    requires place { D.tells_content → IsGateOf (told_of on.old) (gate_of log.now) from }
    requires going { refusal_of on.old ≡ None }
    ensures repeated { (s : State) → Stands on.old s → IsLawful s → OnOk result ((now : State) × AppliesBodies (drop from.gate (bodies ((told_of on.old).content log_file))) s now × Stands on.new now × IsLawful now) }
    ensures damaged { (s : State) (head : Head) → Stands on.old s → IsLawful s → head.frames ≡ from.gate → IfErr result (λ refusal. IfDamaged refusal (FailsInRecords ((told_of on.old).content log_file) head s)) }
    ensures log { D.tells_content → IsOpenLog (told_of on.new) log.now }
    ensures going { OnOk result (refusal_of on.new ≡ None) }
    ensures moves { Moves on.old on.new }
    ensures limited { IfErr result (λ refusal. IfPageLimit refusal IsFull) }
    ensures cause { HasCause (told_of on.old).faults (told_of on.new).faults (result ≡ Err PageRefusal.DiskFault) }
{
    let mut place = from;
    while place.gate < log.frames() {
        match repeat_frame(alloc, on, log, place) {
            Ok(next) => place = next,
            Err(refusal) => return Err(refusal),
        }
    }
    Ok(())
}

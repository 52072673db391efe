// The records past the checkpoint are made again, and the changes that stand then are rolled back.
ghost use Rattle.std.specs.Prelude.{◌≡◌, ◌≤◌, [], Some, None, Err, length, not, true, IfOk, IfErr, OnOk};
ghost use Rattle.wat_faults.specs.Faults.{HasCause};
ghost use Rattle.wat_gate.specs.GateLog.{IsGateOf};
ghost use Rattle.wat_restore.specs.Head.{Head};
ghost use Rattle.wat_images.specs.Refusal.{IfDamaged, IfPageLimit};
ghost use Rattle.wat_schema.specs.Tables.{Tables};
ghost use Rattle.wat_log.specs.Log.{gate_of, log_frames, noted_bytes, IsOpenLog};
ghost use Rattle.wat_replay.specs.State.{State, IsLawful, undone};
ghost use Rattle.wat_files.specs.Formed.{FailsInRecords};
ghost use Rattle.wat_repeating.specs.OnPages.{told_of, refusal_of, Stands, Moves, IsFull};
ghost use Rattle.wat_repeating.specs.Repeated.{RollsBack};
ghost use Rattle.wat_opening.specs.Opening.{settled};
ghost use Rattle.wat_opening.specs.Bringing.{BringsUp};

use std::alloc::Global;
use wat_disk::Disk;
use wat_gate::GatePlace;
use wat_log::Log;
use wat_pages::PageRefusal;
use wat_repeating::{OnPages, repeat, roll_back_all};

/// Rolls back the changes that stand, with a record of each connection that has some, and answers whether there were any.
fn roll_back_open<D: Disk>(
    alloc: Global,
    on: &mut OnPages<D>,
    log: &mut Log,
) -> Result<bool, PageRefusal>
    requires going { refusal_of on.old ≡ None }
    requires noted { noted_bytes log.old ≡ [] }
    ensures undone { (s : State) (t : Tables) → Stands on.old s → IsLawful s → undone s ≡ Some t → OnOk result (Stands on.new (settled t)) }
    ensures rolls { (s : State) (t : Tables) → Stands on.old s → IsLawful s → undone s ≡ Some t → OnOk result (RollsBack log.new s (settled t)) }
    ensures undamaged { (s : State) → Stands on.old s → IsLawful s → IfErr result (λ refusal. IfDamaged refusal (λ file at. ⊥)) }
    ensures short { OnOk result (length (noted_bytes log.new) ≤ 196608) }
    ensures none { IfOk result (λ some. not some ≡ true → noted_bytes log.new ≡ []) }
    ensures gate { gate_of log.new ≡ gate_of log.old }
    ensures going { OnOk result (refusal_of on.new ≡ None) }
    ensures moves { Moves on.old on.new }
    ensures limited { IfErr result (λ refusal. IfPageLimit refusal IsFull) }
    ensures cause { HasCause (told_of on.old).faults (told_of on.new).faults (result ≡ Err PageRefusal.DiskFault) }
{
    match on.objects().next_open(0) {
        Some(_) => {}
        None => return Ok(false),
    }
    match roll_back_all(alloc, on, log) {
        Ok(()) => Ok(true),
        Err(refusal) => Err(refusal),
    }
}

/// Makes the records of the log from a gate on again, and rolls back the changes that stand then. Answers whether there was
/// anything to do.
pub(crate) fn bring_up<D: Disk>(
    alloc: Global,
    on: &mut OnPages<D>,
    log: &mut Log,
    from: GatePlace,
) -> Result<bool, PageRefusal>
    requires log { D.tells_content → IsOpenLog (told_of on.old) log.old }
    requires place { D.tells_content → IsGateOf (told_of on.old) (gate_of log.old) from }
    requires going { refusal_of on.old ≡ None }
    requires noted { noted_bytes log.old ≡ [] }
    ensures brings { (s : State) → Stands on.old s → IsLawful s → OnOk result (BringsUp on.old on.new from.gate log.new s) }
    ensures damaged { (s : State) (head : Head) → Stands on.old s → IsLawful s → head.frames ≡ from.gate → IfErr result (λ refusal. IfDamaged refusal (FailsInRecords ((told_of on.old).content 2) head s)) }
    ensures short { OnOk result (length (noted_bytes log.new) ≤ 196608) }
    ensures none { IfOk result (λ due. not due ≡ true → noted_bytes log.new ≡ []) }
    ensures all { IfOk result (λ due. not due ≡ true → log_frames log.new ≤ from.gate) }
    ensures gate { gate_of log.new ≡ gate_of log.old }
    ensures going { OnOk result (refusal_of on.new ≡ None) }
    ensures moves { Moves on.old on.new }
    ensures limited { IfErr result (λ refusal. IfPageLimit refusal IsFull) }
    ensures cause { HasCause (told_of on.old).faults (told_of on.new).faults (result ≡ Err PageRefusal.DiskFault) }
{
    let behind = from.gate < log.frames();
    match repeat(alloc, on, log, from) {
        Ok(()) => {}
        Err(refusal) => return Err(refusal),
    }
    match roll_back_open(alloc, on, log) {
        Ok(open) => Ok(behind || open),
        Err(refusal) => Err(refusal),
    }
}

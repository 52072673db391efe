// The changes that stand are rolled back, and the log gets a record of each connection.
ghost use Rattle.std.specs.Prelude.{◌≡◌, ◌≤◌, ◌+◌, ◌++◌, ◌∷◌, [], List, Some, None, Err, length, IfErr, OnOk};
ghost use Rattle.wat_faults.specs.Faults.{HasCause};
ghost use Rattle.wat_images.specs.Refusal.{IfDamaged, IfPageLimit};
ghost use Rattle.wat_schema.specs.Tables.{Tables};
ghost use Rattle.wat_log_record.specs.declared.log_record.LogRecord.{LogRecord as AnyRecord};
ghost use Rattle.wat_log_record.specs.declared.log_record.LogRecord.TheVariants as entries;
ghost use Rattle.wat_log.specs.Log.{gate_of, noted_bytes, HasNoted};
ghost use Rattle.wat_replay.specs.State.{State, IsLawful, no_lists, undone};
ghost use Rattle.wat_replay.specs.Replay.{Applies};
ghost use Rattle.wat_repeating.specs.OnPages.{told_of, refusal_of, Stands, Moves, IsFull};
ghost use Rattle.wat_repeating.specs.Repeated.{RollsBack};

use crate::OnPages;
use crate::repeating::repeat_record;
use std::alloc::Global;
use wat_disk::Disk;
use wat_log::Log;
use wat_log_record::LogRecord;
use wat_pages::PageRefusal;
use wat_recover::Target;

/// Rolls a connection's changes back, and notes a record of it.
fn roll_back<D: Disk>(
    alloc: Global,
    on: &mut OnPages<D>,
    log: &mut Log,
    conn: u16,
) -> Result<(), PageRefusal>
    requires going { refusal_of on.old ≡ None }
    requires buffered { length (noted_bytes log.old) ≤ 1048576 }
    ensures undone { (s : State) → Stands on.old s → IsLawful s → OnOk result ((next : State) × Applies (entries.Rollback conn) s next × Stands on.new next) }
    ensures undamaged { (s : State) → Stands on.old s → IsLawful s → IfErr result (λ refusal. IfDamaged refusal (λ file at. ⊥)) }
    ensures noted { (noted : List AnyRecord) → HasNoted log.old noted → OnOk result (HasNoted log.new (noted ++ entries.Rollback conn ∷ [])) }
    ensures bytes { OnOk result (length (noted_bytes log.new) ≡ length (noted_bytes log.old) + 3) }
    ensures gate { gate_of log.new ≡ gate_of log.old }
    ensures going { OnOk result (refusal_of on.new ≡ None) }
    ensures moves { Moves on.old on.new }
    ensures limited { IfErr result (λ refusal. IfPageLimit refusal IsFull) }
    ensures cause { HasCause (told_of on.old).faults (told_of on.new).faults (result ≡ Err PageRefusal.DiskFault) }
{
    let entry = LogRecord::Rollback { conn };
    match repeat_record(alloc, on, &entry) {
        Ok(_) => {}
        Err(refusal) => return Err(refusal),
    }
    match log.note(&entry) {
        Ok(()) => Ok(()),
        Err(_) => Err(PageRefusal::Memory),
    }
}

/// Rolls back the changes of all connections, in the order of their numbers, and notes a record of each. The log has nothing noted
/// before.
///
/// The pages hold a lawful state; they then hold what is committed there, and no list has a change.
pub fn roll_back_all<D: Disk>(
    alloc: Global,
    on: &mut OnPages<D>,
    log: &mut Log,
) -> Result<(), PageRefusal>
    requires going { refusal_of on.old ≡ None }
    requires noted { noted_bytes log.old ≡ [] }
    ensures undone { (s : State) (t : Tables) → Stands on.old s → IsLawful s → undone s ≡ Some t → OnOk result (Stands on.new (record { tables = t; lists = no_lists })) }
    ensures noted { (s : State) (t : Tables) → Stands on.old s → IsLawful s → undone s ≡ Some t → OnOk result (RollsBack log.new s (record { tables = t; lists = no_lists })) }
    ensures undamaged { (s : State) → Stands on.old s → IsLawful s → IfErr result (λ refusal. IfDamaged refusal (λ file at. ⊥)) }
    ensures short { OnOk result (length (noted_bytes log.new) ≤ 196608) }
    ensures gate { gate_of log.new ≡ gate_of log.old }
    ensures going { OnOk result (refusal_of on.new ≡ None) }
    ensures moves { Moves on.old on.new }
    ensures limited { IfErr result (λ refusal. IfPageLimit refusal IsFull) }
    ensures cause { HasCause (told_of on.old).faults (told_of on.new).faults (result ≡ Err PageRefusal.DiskFault) }
{
    let mut from = 0;
    while let Some(conn) = on.next_open(from) {
        match roll_back(alloc, on, log, conn) {
            Ok(()) => {}
            Err(refusal) => return Err(refusal),
        }
        from = u32::from(conn) + 1;
    }
    Ok(())
}

// What ends a connection's changes, or changes the schema, over the store's parts.
ghost use Rattle.std.specs.Prelude.{◌≡◌, ◌≢◌, ◌≤◌, [], ℕ, Some, length, IsErr, IfErr, OnOk};
ghost use Rattle.wat_faults.specs.Faults.{HasCause};
ghost use Rattle.wat_images.specs.Refusal.{IfDamaged, IfPageLimit};
ghost use Rattle.wat_pages.specs.Pages.{limit_of};
ghost use Rattle.wat_schema.specs.Tables.{Tables};
ghost use Rattle.wat_log_record.specs.Encoding.{record_bytes, IsWritable, IsWritableSchema};
ghost use Rattle.wat_log_record.specs.declared.log_record.LogRecord.TheVariants as entry;
ghost use Rattle.wat_log.specs.Log.{noted_bytes, spare_of};
ghost use Rattle.wat_replay.specs.State.{State, undone};
ghost use Rattle.wat_replay.specs.Replay.{Applies};
ghost use Rattle.wat_replay.specs.Committed.{CommitsNothing};
ghost use Rattle.wat_objects.specs.Objects.{pages_of};
ghost use Rattle.wat_store.specs.Parts.{AreOpen, IsStore, StopsAt};

use crate::composed::{commit_noted, flush_noted};
use crate::steps::relieve;
use crate::taking_back::{forget_list, undo_changes};
use wat_disk::{Disk, DiskFault};
use wat_log::Log;
use wat_objects::Objects;
use wat_pages::{PageRefusal, Within};
use wat_record::LogRecord;
use wat_value::SchemaChange;

/// Commits the connection's changes, and leaves its list empty.
pub(crate) fn commit_list<D: Disk>(
    disk: &mut D,
    objects: &mut Objects,
    log: &mut Log,
    conn: u16,
) -> Result<(), DiskFault>
    requires known { D.tells_content → AreOpen (D.told disk.old) objects.old log.old }
    requires room { 1 ≤ spare_of log.old }

    ensures known { D.tells_content → OnOk result (AreOpen (D.told disk.new) objects.new log.new) }
    ensures room { OnOk result (length (noted_bytes log.new) ≤ 1048576) }
    ensures committed { D.tells_content → (s next : State) (t after : Tables) → IsStore (D.told disk.old) objects.old log.old s t → Applies (entry.Commit conn) s next → undone next ≡ Some after → OnOk result (IsStore (D.told disk.new) objects.new log.new next after) }
    ensures stops { D.tells_content → (s next : State) (t after : Tables) → IsStore (D.told disk.old) objects.old log.old s t → Applies (entry.Commit conn) s next → undone next ≡ Some after → StopsAt (D.told disk.old) (D.told disk.new) objects.old t after }
    ensures limit { limit_of (pages_of objects.new) ≡ limit_of (pages_of objects.old) }
    ensures cause { HasCause (D.told disk.old).faults (D.told disk.new).faults (IsErr result) }
{
    commit_noted(disk, objects.pages(), log, conn)?;
    forget_list(objects, conn);
    Ok(())
}

/// Makes a change of the schema that is allowed, and puts it on the disk.
pub(crate) fn alter_schema<D: Disk>(
    disk: &mut D,
    objects: &mut Objects,
    log: &mut Log,
    change: SchemaChange,
) -> Result<(), PageRefusal>
    requires known { D.tells_content → AreOpen (D.told disk.old) objects.old log.old }
    requires room { length (noted_bytes log.old) ≤ 1048576 }
    requires writable { IsWritableSchema change }
    requires short { length (record_bytes (entry.Schema change)) ≤ 900000 }

    ensures known { D.tells_content → OnOk result (AreOpen (D.told disk.new) objects.new log.new) }
    ensures room { OnOk result (length (noted_bytes log.new) ≤ 1048576) }
    ensures altered { D.tells_content → (s next : State) (t after : Tables) → IsStore (D.told disk.old) objects.old log.old s t → Applies (entry.Schema change) s next → undone next ≡ Some after → OnOk result (IsStore (D.told disk.new) objects.new log.new next after) }
    ensures stops { D.tells_content → (s next : State) (t after : Tables) → IsStore (D.told disk.old) objects.old log.old s t → Applies (entry.Schema change) s next → undone next ≡ Some after → StopsAt (D.told disk.old) (D.told disk.new) objects.old t after }

    // After a refusal that is no fault of the disk no image has the change.
    ensures without { D.tells_content → (s next : State) (t after : Tables) → IsStore (D.told disk.old) objects.old log.old s t → Applies (entry.Schema change) s next → undone next ≡ Some after
        → IfErr result (λ refusal. refusal ≢ PageRefusal.DiskFault → StopsAt (D.told disk.old) (D.told disk.new) objects.old t t) }

    ensures limit { D.tells_content → limit_of (pages_of objects.new) ≡ limit_of (pages_of objects.old) }
    ensures undamaged { D.tells_content → (s : State) (t : Tables) → IsStore (D.told disk.old) objects.old log.old s t → IfErr result (λ refusal. IfDamaged refusal (λ file at. ⊥)) }
    ensures limited { IfErr result (λ refusal. IfPageLimit refusal (λ count limit. (limit ≡ limit_of (pages_of objects.old)) × (limit ≤ count))) }
    ensures cause { HasCause (D.told disk.old).faults (D.told disk.new).faults (result ≡ Err PageRefusal.DiskFault) }
{
    objects.alter(disk, &change, Within::Limit)?;
    log.note(&LogRecord::Schema(change))?;
    flush_noted(disk, objects.pages(), log)?;
    Ok(())
}

/// Undoes the connection's changes until so many are left, and notes that by this record where there was one to undo.
fn undo_noted<D: Disk>(
    disk: &mut D,
    objects: &mut Objects,
    log: &mut Log,
    conn: u16,
    count: u32,
    noted: &LogRecord,
) -> Result<(), PageRefusal>
    requires known { D.tells_content → AreOpen (D.told disk.old) objects.old log.old }
    requires room { length (noted_bytes log.old) ≤ 1048576 }
    requires writable { IsWritable noted.now }
    requires short { length (record_bytes noted.now) ≤ 900000 }
    requires quiet { CommitsNothing noted.now }
    requires says { (s next : State) → Applies (entry.UndoTo conn count) s next → Applies noted.now s next }

    ensures known { D.tells_content → OnOk result (AreOpen (D.told disk.new) objects.new log.new) }
    ensures room { OnOk result (length (noted_bytes log.new) ≤ 1048576) }
    ensures undone { D.tells_content → (s next : State) (t : Tables) → IsStore (D.told disk.old) objects.old log.old s t → Applies (entry.UndoTo conn count) s next → OnOk result (IsStore (D.told disk.new) objects.new log.new next t) }
    ensures stops { D.tells_content → (s next : State) (t : Tables) → IsStore (D.told disk.old) objects.old log.old s t → Applies (entry.UndoTo conn count) s next → StopsAt (D.told disk.old) (D.told disk.new) objects.old t t }
    ensures limit { D.tells_content → limit_of (pages_of objects.new) ≡ limit_of (pages_of objects.old) }
    ensures undamaged { D.tells_content → (s next : State) (t : Tables) → IsStore (D.told disk.old) objects.old log.old s t → Applies (entry.UndoTo conn count) s next → IfErr result (λ refusal. IfDamaged refusal (λ file at. ⊥)) }
    ensures limited { IfErr result (λ refusal. IfPageLimit refusal (λ count limit. (limit ≡ 4294967295) × (limit ≤ count))) }
    ensures cause { HasCause (D.told disk.old).faults (D.told disk.new).faults (result ≡ Err PageRefusal.DiskFault) }
{
    if objects.count(conn) <= count {
        return Ok(());
    }
    undo_changes(disk, objects, conn, count)?;
    log.note(noted)?;
    relieve(disk, objects, log)?;
    Ok(())
}

/// Undoes the connection's changes until so many are left.
pub(crate) fn undo_list<D: Disk>(
    disk: &mut D,
    objects: &mut Objects,
    log: &mut Log,
    conn: u16,
    count: u32,
) -> Result<(), PageRefusal>
    requires known { D.tells_content → AreOpen (D.told disk.old) objects.old log.old }
    requires room { length (noted_bytes log.old) ≤ 1048576 }

    ensures known { D.tells_content → OnOk result (AreOpen (D.told disk.new) objects.new log.new) }
    ensures room { OnOk result (length (noted_bytes log.new) ≤ 1048576) }
    ensures undone { D.tells_content → (s next : State) (t : Tables) → IsStore (D.told disk.old) objects.old log.old s t → Applies (entry.UndoTo conn count) s next → OnOk result (IsStore (D.told disk.new) objects.new log.new next t) }
    ensures stops { D.tells_content → (s next : State) (t : Tables) → IsStore (D.told disk.old) objects.old log.old s t → Applies (entry.UndoTo conn count) s next → StopsAt (D.told disk.old) (D.told disk.new) objects.old t t }
    ensures limit { D.tells_content → limit_of (pages_of objects.new) ≡ limit_of (pages_of objects.old) }
    ensures undamaged { D.tells_content → (s next : State) (t : Tables) → IsStore (D.told disk.old) objects.old log.old s t → Applies (entry.UndoTo conn count) s next → IfErr result (λ refusal. IfDamaged refusal (λ file at. ⊥)) }
    ensures limited { IfErr result (λ refusal. IfPageLimit refusal (λ count limit. (limit ≡ 4294967295) × (limit ≤ count))) }
    ensures cause { HasCause (D.told disk.old).faults (D.told disk.new).faults (result ≡ Err PageRefusal.DiskFault) }
{
    undo_noted(
        disk,
        objects,
        log,
        conn,
        count,
        &LogRecord::UndoTo { conn, count },
    )?;
    Ok(())
}

/// Undoes the connection's changes.
pub(crate) fn roll_back<D: Disk>(
    disk: &mut D,
    objects: &mut Objects,
    log: &mut Log,
    conn: u16,
) -> Result<(), PageRefusal>
    requires known { D.tells_content → AreOpen (D.told disk.old) objects.old log.old }
    requires room { length (noted_bytes log.old) ≤ 1048576 }

    ensures known { D.tells_content → OnOk result (AreOpen (D.told disk.new) objects.new log.new) }
    ensures room { OnOk result (length (noted_bytes log.new) ≤ 1048576) }
    ensures undone { D.tells_content → (s next : State) (t : Tables) → IsStore (D.told disk.old) objects.old log.old s t → Applies (entry.Rollback conn) s next → OnOk result (IsStore (D.told disk.new) objects.new log.new next t) }
    ensures stops { D.tells_content → (s next : State) (t : Tables) → IsStore (D.told disk.old) objects.old log.old s t → Applies (entry.Rollback conn) s next → StopsAt (D.told disk.old) (D.told disk.new) objects.old t t }
    ensures limit { D.tells_content → limit_of (pages_of objects.new) ≡ limit_of (pages_of objects.old) }
    ensures undamaged { D.tells_content → (s next : State) (t : Tables) → IsStore (D.told disk.old) objects.old log.old s t → Applies (entry.Rollback conn) s next → IfErr result (λ refusal. IfDamaged refusal (λ file at. ⊥)) }
    ensures limited { IfErr result (λ refusal. IfPageLimit refusal (λ count limit. (limit ≡ 4294967295) × (limit ≤ count))) }
    ensures cause { HasCause (D.told disk.old).faults (D.told disk.new).faults (result ≡ Err PageRefusal.DiskFault) }
{
    undo_noted(disk, objects, log, conn, 0, &LogRecord::Rollback { conn })?;
    Ok(())
}

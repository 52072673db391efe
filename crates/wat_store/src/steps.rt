// The calls of a store over its parts: the disk, the objects on its pages, and the log.
ghost use Rattle.std.specs.Prelude.{◌≡◌, ◌≢◌, ◌<◌, ◌≤◌, ◌++◌, ◌∷◌, [], ℕ, List, Some, length, IsErr, IfErr, OnOk};
ghost use Rattle.wat_disk.specs.Disk.{EachStop, IsSynced, SameOthers};
ghost use Rattle.wat_faults.specs.Faults.{HasCause};
ghost use Rattle.wat_book.specs.Book.{Book};
ghost use Rattle.wat_images.specs.Refusal.{IfDamaged, IfPageLimit};
ghost use Rattle.wat_pages.specs.Pages.{count_of, limit_of, first_free_of};
ghost use Rattle.wat_schema.specs.Tables.{Tables};
ghost use Rattle.wat_log_record.specs.Encoding.{record_bytes, IsWritableChange, IsWritableSchema};
ghost use Rattle.wat_log_record.specs.declared.log_record.LogRecord.{LogRecord as AnyRecord};
ghost use Rattle.wat_log_record.specs.declared.log_record.LogRecord.TheVariants as entries;
ghost use Rattle.wat_value.specs.declared.change.Change.{Change as AnyChange};
ghost use Rattle.wat_log.specs.Log.{HasNoted, gate_of, noted_bytes, spare_of};
ghost use Rattle.wat_replay.specs.State.{State, undone, with_list};
ghost use Rattle.wat_replay.specs.Replay.{Applies};
ghost use Rattle.wat_objects.specs.Objects.{pages_of, HoldsOn};
ghost use Rattle.wat_store.specs.Parts.{AreOpen, IsStore, StopsAt};

use crate::composed::flush_noted;
use wat_disk::{Disk, DiskFault};
use wat_list::NoMemory;
use wat_log::Log;
use wat_objects::Objects;
use wat_pages::{PageRefusal, Within};
use wat_record::LogRecord;
use wat_value::Change;

/// How many bytes are noted before they are flushed.
const BUFFER: usize = 1_048_576;

/// Flushes what is noted.
pub(crate) fn settle<D: Disk>(
    disk: &mut D,
    objects: &Objects,
    log: &mut Log,
) -> Result<(), DiskFault>
    requires known { D.tells_content → AreOpen (D.told disk.old) objects.now log.old }

    ensures known { D.tells_content → OnOk result (AreOpen (D.told disk.new) objects.now log.new) }
    ensures noted { OnOk result (HasNoted log.new []) }
    ensures others { SameOthers 2 (D.told disk.old).content (D.told disk.new).content }
    ensures beside { D.tells_content → IsSynced (D.told disk.old) 2 → EachStop (D.told disk.old) (D.told disk.new) (SameOthers 2) }
    ensures synced { IsSynced (D.told disk.old) 2 → OnOk result (IsSynced (D.told disk.new) 2) }
    ensures stands { D.tells_content → (s : State) (t : Tables) → IsStore (D.told disk.old) objects.now log.old s t → OnOk result (IsStore (D.told disk.new) objects.now log.new s t) }
    ensures stops { D.tells_content → (s : State) (t : Tables) → IsStore (D.told disk.old) objects.now log.old s t → StopsAt (D.told disk.old) (D.told disk.new) objects.now t t }
    ensures cause { HasCause (D.told disk.old).faults (D.told disk.new).faults (IsErr result) }
{
    flush_noted(disk, objects.pages(), log)?;
    Ok(())
}

/// Flushes what is noted where it has passed the size of the buffer.
pub(crate) fn relieve<D: Disk>(
    disk: &mut D,
    objects: &Objects,
    log: &mut Log,
) -> Result<(), DiskFault>
    requires known { D.tells_content → AreOpen (D.told disk.old) objects.now log.old }

    ensures known { D.tells_content → OnOk result (AreOpen (D.told disk.new) objects.now log.new) }
    ensures room { OnOk result (length (noted_bytes log.new) ≤ 1048576) }
    ensures stands { D.tells_content → (s : State) (t : Tables) → IsStore (D.told disk.old) objects.now log.old s t → OnOk result (IsStore (D.told disk.new) objects.now log.new s t) }
    ensures stops { D.tells_content → (s : State) (t : Tables) → IsStore (D.told disk.old) objects.now log.old s t → StopsAt (D.told disk.old) (D.told disk.new) objects.now t t }
    ensures cause { HasCause (D.told disk.old).faults (D.told disk.new).faults (IsErr result) }
{
    if log.buffered() <= BUFFER {
        return Ok(());
    }
    settle(disk, objects, log)?;
    Ok(())
}

/// The change of a record that tells one.
fn change_in(entry: LogRecord) -> Option<Change>
    ensures { (conn : ℕ) (change : AnyChange) → entry ≡ entries.Changed conn change → result ≡ Some change }
{
    match entry {
        LogRecord::Changed {
            conn: _conn,
            change,
        } => Some(change),
        LogRecord::UndoTo {
            conn: _conn,
            count: _count,
        } => None,
        LogRecord::Commit { conn: _conn } => None,
        LogRecord::Rollback { conn: _conn } => None,
        LogRecord::Schema(_change) => None,
    }
}

/// Notes a change of a connection, and puts it behind the connection's others.
fn record_change(
    objects: &mut Objects,
    log: &mut Log,
    conn: u16,
    change: Change,
) -> Result<(), NoMemory>
    requires room { length (noted_bytes log.old) ≤ 1048576 }
    requires writable { IsWritableChange change }
    requires short { length (record_bytes (entries.Changed conn change)) ≤ 900000 }

    ensures noted { (noted : List AnyRecord) → HasNoted log.old noted → OnOk result (HasNoted log.new (noted ++ entries.Changed conn change ∷ [])) }
    ensures gate { gate_of log.new ≡ gate_of log.old }
    ensures pushed { (book : Book) (held : State) → HoldsOn book objects.old held → OnOk result (HoldsOn book objects.new (record { tables = held.tables; lists = with_list conn (held.lists conn ++ change ∷ []) held.lists })) }
    ensures pages { pages_of objects.new ≡ pages_of objects.old }
{
    let entry = LogRecord::Changed { conn, change };
    log.note(&entry)?;
    match change_in(entry) {
        Some(change) => {
            objects.push(conn, change)?;
            Ok(())
        }
        None => unreachable!(),
    }
}

/// Makes a change that applies, and notes it.
pub(crate) fn make_change<D: Disk>(
    disk: &mut D,
    objects: &mut Objects,
    log: &mut Log,
    conn: u16,
    change: Change,
) -> Result<(), PageRefusal>
    requires known { D.tells_content → AreOpen (D.told disk.old) objects.old log.old }
    requires room { length (noted_bytes log.old) ≤ 1048576 }
    requires writable { IsWritableChange change }
    requires short { length (record_bytes (entries.Changed conn change)) ≤ 900000 }

    ensures known { D.tells_content → OnOk result (AreOpen (D.told disk.new) objects.new log.new) }
    ensures room { OnOk result (length (noted_bytes log.new) ≤ 1048576) }
    ensures changed { D.tells_content → (s next : State) (t : Tables) → IsStore (D.told disk.old) objects.old log.old s t → Applies (entries.Changed conn change) s next → OnOk result (IsStore (D.told disk.new) objects.new log.new next t) }
    ensures stops { D.tells_content → (s next : State) (t : Tables) → IsStore (D.told disk.old) objects.old log.old s t → Applies (entries.Changed conn change) s next → StopsAt (D.told disk.old) (D.told disk.new) objects.old t t }
    ensures limit { D.tells_content → limit_of (pages_of objects.new) ≡ limit_of (pages_of objects.old) }
    ensures undamaged { D.tells_content → (s : State) (t : Tables) → IsStore (D.told disk.old) objects.old log.old s t → IfErr result (λ refusal. IfDamaged refusal (λ file at. ⊥)) }
    ensures limited { IfErr result (λ refusal. IfPageLimit refusal (λ count limit. (count ≡ count_of (pages_of objects.old)) × (limit ≡ limit_of (pages_of objects.old)) × (limit ≤ count) × (first_free_of (pages_of objects.old) ≡ 0))) }
    ensures cause { HasCause (D.told disk.old).faults (D.told disk.new).faults (result ≡ Err PageRefusal.DiskFault) }
{
    objects.make(disk, &change, Within::Limit)?;
    record_change(objects, log, conn, change)?;
    relieve(disk, objects, log)?;
    Ok(())
}

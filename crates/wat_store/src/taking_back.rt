// A connection's changes are taken back, and a connection's list is left.
ghost use Rattle.std.specs.Prelude.{◌≡◌, ◌+◌, ◌≤◌, ◌∷◌, [], ℕ, Some, length, IfErr, OnOk};
ghost use Rattle.wat_faults.specs.Faults.{HasCause};
ghost use Rattle.wat_restore.specs.Restored.{Checkpoint};
ghost use Rattle.wat_restore.specs.Safe.{IsSafe};
ghost use Rattle.wat_book.specs.Book.{Book};
ghost use Rattle.wat_images.specs.Refusal.{IfDamaged, IfPageLimit};
ghost use Rattle.wat_pages.specs.Pages.{stored_of, IsPagesOf};
ghost use Rattle.wat_cells.specs.Going.{Goes, Keeps};
ghost use Rattle.wat_schema.specs.Tables.{inverse as inverse_of};
ghost use Rattle.wat_log_record.specs.declared.log_record.LogRecord.TheVariants as entry;
ghost use Rattle.wat_replay.specs.State.{State, IsLawful, with_list};
ghost use Rattle.wat_replay.specs.Replay.{Applies};
ghost use Rattle.wat_objects.specs.Objects.{pages_of, Holds, HoldsOn};

use wat_disk::Disk;
use wat_objects::Objects;
use wat_pages::{PageRefusal, Within};
use wat_value::Change;

/// The change that takes this one back.
fn inverse(change: Change) -> Change
    ensures { result ≡ inverse_of change }
{
    match change {
        Change::Insert { table, row } => Change::Delete { table, before: row },
        Change::Update {
            table,
            before,
            after,
        } => Change::Update {
            table,
            before: after,
            after: before,
        },
        Change::Delete { table, before } => Change::Insert { table, row: before },
    }
}

/// Undoes the connection's last change.
fn undo_last<D: Disk>(disk: &mut D, objects: &mut Objects, conn: u16) -> Result<(), PageRefusal>
    requires known { D.tells_content → IsPagesOf (D.told disk.old) (pages_of objects.old) }

    ensures undone { D.tells_content → (s : State) (n : ℕ) → Holds (D.told disk.old) objects.old s → IsLawful s → length (s.lists conn) ≡ n + 1
        → OnOk result ((next : State) × Applies (entry.UndoTo conn n) s next × Holds (D.told disk.new) objects.new next) }
    ensures goes { D.tells_content → Goes (D.told disk.old) (D.told disk.new) (pages_of objects.old) (pages_of objects.new) }
    ensures keeps { D.tells_content → OnOk result (Keeps (D.told disk.old) (D.told disk.new) (pages_of objects.new)) }
    ensures undamaged { D.tells_content → (saved : Checkpoint) → IsSafe saved (D.told disk.old) → saved.count ≡ stored_of (pages_of objects.old) → (s : State) → Holds (D.told disk.old) objects.old s → IfErr result (λ refusal. IfDamaged refusal (λ file at. ⊥)) }
    ensures limited { IfErr result (λ refusal. IfPageLimit refusal (λ count limit. (limit ≡ 4294967295) × (limit ≤ count))) }
    ensures cause { HasCause (D.told disk.old).faults (D.told disk.new).faults (result ≡ Err PageRefusal.DiskFault) }
{
    let Some(change) = objects.pop(conn) else {
        return Ok(());
    };
    objects.make(disk, &inverse(change), Within::Any)?;
    Ok(())
}

/// Undoes the connection's changes, the last one first, until so many are left.
pub(crate) fn undo_changes<D: Disk>(
    disk: &mut D,
    objects: &mut Objects,
    conn: u16,
    count: u32,
) -> Result<(), PageRefusal>
    requires known { D.tells_content → IsPagesOf (D.told disk.old) (pages_of objects.old) }

    ensures undone { D.tells_content → (s : State) → Holds (D.told disk.old) objects.old s → IsLawful s → count ≤ length (s.lists conn)
        → OnOk result ((next : State) × Applies (entry.UndoTo conn count) s next × Holds (D.told disk.new) objects.new next) }
    ensures goes { D.tells_content → Goes (D.told disk.old) (D.told disk.new) (pages_of objects.old) (pages_of objects.new) }
    ensures keeps { D.tells_content → OnOk result (Keeps (D.told disk.old) (D.told disk.new) (pages_of objects.new)) }
    ensures undamaged { D.tells_content → (saved : Checkpoint) → IsSafe saved (D.told disk.old) → saved.count ≡ stored_of (pages_of objects.old) → (s : State) → Holds (D.told disk.old) objects.old s → IsLawful s → count ≤ length (s.lists conn)
        → IfErr result (λ refusal. IfDamaged refusal (λ file at. ⊥)) }
    ensures limited { IfErr result (λ refusal. IfPageLimit refusal (λ count limit. (limit ≡ 4294967295) × (limit ≤ count))) }
    ensures cause { HasCause (D.told disk.old).faults (D.told disk.new).faults (result ≡ Err PageRefusal.DiskFault) }
{
    let standing = objects.count(conn);
    for _i in count..standing {
        undo_last(disk, objects, conn)?;
    }
    Ok(())
}

/// Leaves the connection's list empty; the changes stand.
pub(crate) fn forget_list(objects: &mut Objects, conn: u16)
    ensures left { (book : Book) (held : State) → HoldsOn book objects.old held → HoldsOn book objects.new (record { tables = held.tables; lists = with_list conn [] held.lists }) }
    ensures pages { pages_of objects.new ≡ pages_of objects.old }
{
    let standing = objects.count(conn);
    for _i in 0..standing {
        let _ = objects.pop(conn);
    }
}

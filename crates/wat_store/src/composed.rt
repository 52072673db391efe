ghost use Rattle.std.specs.Prelude.{◌≡◌, ◌<◌, ◌≤◌, ◌^◌, ◌++◌, [], ℕ, List, Some, IsErr, OnOk};
ghost use Rattle.wat_disk.specs.Disk.{EachStop, IsSynced, SameOthers};
ghost use Rattle.wat_faults.specs.Faults.{HasCause};
ghost use Rattle.wat_book.specs.Book.{Owners};
ghost use Rattle.wat_pages.specs.Pages.{book_of, limit_of, stored_of, next_head, IsPagesOf};
ghost use Rattle.wat_schema.specs.Tables.{Tables};
ghost use Rattle.wat_log_record.specs.declared.log_record.LogRecord.{LogRecord};
ghost use Rattle.wat_log_record.specs.declared.log_record.LogRecord.TheVariants as entry;
ghost use Rattle.wat_log.specs.Log.{HasNoted, IsOpenLog, spare_of};
ghost use Rattle.wat_replay.specs.State.{State, undone};
ghost use Rattle.wat_replay.specs.Replay.{Applies, AppliesAll};
ghost use Rattle.wat_keeping.specs.Durable.{LeavesEither};
ghost use Rattle.wat_keeping.specs.Kept.{IsKept};
ghost use Rattle.wat_held.specs.Held.{HoldsState};
ghost use Rattle.wat_store.specs.Saving.{CountsLog};

use wat_disk::{Disk, DiskFault};
use wat_log::Log;
use wat_pages::{Header, PageRefusal, Pages};

/// Flushes what is noted: all of it commits nothing, or a change of the schema stands behind the rest.
pub fn flush_noted<D: Disk>(disk: &mut D, pages: &Pages, log: &mut Log) -> Result<(), DiskFault>
    requires known { D.tells_content → IsOpenLog (D.told disk.old) log.old }

    ensures known { D.tells_content → OnOk result (IsOpenLog (D.told disk.new) log.new) }
    ensures noted { OnOk result (HasNoted log.new []) }
    ensures pages { D.tells_content → IsPagesOf (D.told disk.old) pages.now → IsPagesOf (D.told disk.new) pages.now }
    ensures others { SameOthers 2 (D.told disk.old).content (D.told disk.new).content }

    // A stop at any moment leaves all other files as one before.
    ensures beside { D.tells_content → IsSynced (D.told disk.old) 2 → EachStop (D.told disk.old) (D.told disk.new) (SameOthers 2) }
    ensures synced { IsSynced (D.told disk.old) 2 → OnOk result (IsSynced (D.told disk.new) 2) }

    // A stop at any moment leaves a database of the committed tables from before, or of those with what the records commit.
    ensures stops { D.tells_content → (limit : ℕ) (noted more : List LogRecord) (s next : State) (t after : Tables)
        → IsKept limit (stored_of pages.now) (D.told disk.old) noted s t → HasNoted log.old (noted ++ more) → AppliesAll more s next → undone next ≡ Some after
        → EachStop (D.told disk.old) (D.told disk.new) (LeavesEither limit t after) }

    // At Ok each later stop leaves the latter.
    ensures kept { D.tells_content → (limit : ℕ) (noted more : List LogRecord) (s next : State) (t after : Tables)
        → IsKept limit (stored_of pages.now) (D.told disk.old) noted s t → HasNoted log.old (noted ++ more) → AppliesAll more s next → undone next ≡ Some after
        → OnOk result (IsKept limit (stored_of pages.now) (D.told disk.new) [] next after) }

    ensures cause { HasCause (D.told disk.old).faults (D.told disk.new).faults (IsErr result) }
{
    log.flush(disk)?;
    Ok(())
}

/// Commits the changes of a connection: what is noted and its Commit record are one frame.
pub fn commit_noted<D: Disk>(
    disk: &mut D,
    pages: &Pages,
    log: &mut Log,
    conn: u16,
) -> Result<(), DiskFault>
    requires known { D.tells_content → IsOpenLog (D.told disk.old) log.old }
    requires room { 1 ≤ spare_of log.old }

    ensures known { D.tells_content → OnOk result (IsOpenLog (D.told disk.new) log.new) }
    ensures noted { OnOk result (HasNoted log.new []) }
    ensures pages { D.tells_content → IsPagesOf (D.told disk.old) pages.now → IsPagesOf (D.told disk.new) pages.now }
    ensures others { SameOthers 2 (D.told disk.old).content (D.told disk.new).content }

    // A stop at any moment leaves a database of the committed tables from before, or of those with the connection's changes.
    ensures stops { D.tells_content → (limit : ℕ) (noted : List LogRecord) (s next : State) (t after : Tables)
        → IsKept limit (stored_of pages.now) (D.told disk.old) noted s t → HasNoted log.old noted → Applies (entry.Commit conn) s next → undone next ≡ Some after
        → EachStop (D.told disk.old) (D.told disk.new) (LeavesEither limit t after) }

    // At Ok each later stop leaves the latter.
    ensures kept { D.tells_content → (limit : ℕ) (noted : List LogRecord) (s next : State) (t after : Tables)
        → IsKept limit (stored_of pages.now) (D.told disk.old) noted s t → HasNoted log.old noted → Applies (entry.Commit conn) s next → undone next ≡ Some after
        → OnOk result (IsKept limit (stored_of pages.now) (D.told disk.new) [] next after) }

    ensures cause { HasCause (D.told disk.old).faults (D.told disk.new).faults (IsErr result) }
{
    log.commit(disk, conn)?;
    Ok(())
}

/// Makes the pages now the checkpoint, with all frames of the log behind it.
pub fn save<D: Disk>(disk: &mut D, pages: &mut Pages, header: &Header) -> Result<(), PageRefusal>
    requires known { D.tells_content → IsPagesOf (D.told disk.old) pages.old }

    ensures known { D.tells_content → OnOk result (IsPagesOf (D.told disk.new) pages.new) }

    // A stop at any moment leaves a database of the committed tables.
    ensures stops { D.tells_content → (s : State) (t : Tables) (owners : Owners) (free : List ℕ)
        → IsKept (limit_of pages.old) (stored_of pages.old) (D.told disk.old) [] s t → CountsLog (D.told disk.old) header.now
        → HoldsState (book_of (D.told disk.old) pages.old) owners free (next_head pages.old header.now) s
        → EachStop (D.told disk.old) (D.told disk.new) (LeavesEither (limit_of pages.old) t t) }

    // At Ok the files restart to them by the new checkpoint.
    ensures kept { D.tells_content → (s : State) (t : Tables) (owners : Owners) (free : List ℕ)
        → IsKept (limit_of pages.old) (stored_of pages.old) (D.told disk.old) [] s t → CountsLog (D.told disk.old) header.now
        → HoldsState (book_of (D.told disk.old) pages.old) owners free (next_head pages.old header.now) s
        → OnOk result (IsKept (limit_of pages.new) (stored_of pages.new) (D.told disk.new) [] s t) }
{
    let limit = pages.limit();
    let count = pages.count();
    let first_free = pages.first_free();
    fit(
        limit,
        count,
        first_free,
        header.frames,
        header.place,
        header.catalog,
        header.rollback,
        header.next_table,
    );
    pages.checkpoint(disk, header)?;
    Ok(())
}

// Numbers fit their types.
pub(crate) fn fit(
    limit: u32,
    count: u32,
    free: u32,
    frames: u64,
    place: u64,
    catalog: u32,
    rollback: u32,
    next_table: u32,
)
    ensures limit { limit < 2 ^ 32 }
    ensures count { count < 2 ^ 32 }
    ensures free { free < 2 ^ 32 }
    ensures frames { frames < 2 ^ 64 }
    ensures place { place < 2 ^ 64 }
    ensures catalog { catalog < 2 ^ 32 }
    ensures rollback { rollback < 2 ^ 32 }
    ensures next_table { next_table < 2 ^ 32 }
{}

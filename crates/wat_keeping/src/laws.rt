ghost use Rattle.std.specs.Prelude.{◌≡◌, ℕ, List, [], ◌∷◌, ◌++◌, Some};
ghost use Rattle.wat_disk.specs.Disk.{Image, Leaves, IsSynced, EachStop};
ghost use Rattle.wat_gate.specs.Bodies.{bodies};
ghost use Rattle.wat_restore.specs.Head.{Head};
ghost use Rattle.wat_restore.specs.Restored.{Checkpoint};
ghost use Rattle.wat_schema.specs.Tables.{Tables, apply_all};
ghost use Rattle.wat_log_record.specs.declared.log_record.LogRecord.{LogRecord};
ghost use Rattle.wat_log_record.specs.Bodies.{SpellsRecords};
ghost use Rattle.wat_replay.specs.State.{State, undone};
ghost use Rattle.wat_replay.specs.Replay.{Applies, AppliesAll};
ghost use Rattle.wat_replay.specs.Committed.{CommitsNothing, commits_of};
ghost use Rattle.wat_files.specs.Formed.{IsSound, Opens};
ghost use Rattle.wat_keeping.specs.Durable.{Makes, IsAt, IsDatabase, LeavesEither};
ghost use Rattle.wat_keeping.specs.Kept.{IsKept};
ghost use Rattle.wat_keeping.specs.Steps.{CoversPages, ChangesPages, MayAppend, Appends, MaySave, SavesAll, SavesPages};

use wat_disk::Disk;

/// Where a checkpoint and a log's bodies make a state, each image that holds both is a database, which restarts to the state's
/// tables with all lists undone. A database opens to the tables to which it restarts, and these are one.
pub fn image_laws()
    ensures database { (saved : Checkpoint) (head : Head) (log : List (List ℕ)) (now : State) (t : Tables) (files : Image) → Makes saved head log now → undone now ≡ Some t → IsAt saved log files → IsDatabase head.limit t files }
    ensures opens { (limit : ℕ) (t : Tables) (files : Image) → IsDatabase limit t files → Opens files t }
    ensures once { (limit other : ℕ) (t u : Tables) (files : Image) → IsDatabase limit t files → IsDatabase other u files → t ≡ u }
{}

/// A store is kept from the start on, where its files are sound and all of them are on the disk. What a stop then leaves is a
/// database of the committed tables; these are the tables with all lists undone. A record that is noted and commits nothing
/// changes none of it.
pub fn kept_laws<D: Disk>()
    ensures first { (disk : D) (t : Tables) (sound : IsSound (D.told disk).content) → IsSynced (D.told disk) 0 → IsSynced (D.told disk) 1 → IsSynced (D.told disk) 2 → undone sound.formed.now ≡ Some t → IsKept sound.formed.head.limit sound.formed.head.count (D.told disk) [] sound.formed.now t }
    ensures now { (disk : D) (limit stored : ℕ) (noted : List LogRecord) (s : State) (t : Tables) → IsKept limit stored (D.told disk) noted s t → (image : Image) → Leaves (D.told disk) image → IsDatabase limit t image }
    ensures committed { (disk : D) (limit stored : ℕ) (noted : List LogRecord) (s : State) (t : Tables) → IsKept limit stored (D.told disk) noted s t → undone s ≡ Some t }
    ensures no_list { (disk : D) (limit stored : ℕ) (noted : List LogRecord) (s : State) (t : Tables) → IsKept limit stored (D.told disk) noted s t → ((conn : ℕ) → s.lists conn ≡ []) → s.tables ≡ t }
    ensures note { (disk : D) (limit stored : ℕ) (noted : List LogRecord) (entry : LogRecord) (s next : State) (t : Tables) → IsKept limit stored (D.told disk) noted s t → Applies entry s next → CommitsNothing entry → IsKept limit stored (D.told disk) (noted ++ entry ∷ []) next t }
{}

/// A call of the pages that leaves each checkpoint covered leaves the committed tables at every stop, and keeps the store.
pub fn pages_laws<D: Disk>()
    ensures stop { (old new : D) (limit stored : ℕ) (noted : List LogRecord) (s : State) (t : Tables) → IsKept limit stored (D.told old) noted s t → CoversPages (D.told old) (D.told new) → EachStop (D.told old) (D.told new) (LeavesEither limit t t) }
    ensures kept { (old new : D) (limit stored : ℕ) (noted : List LogRecord) (s : State) (t : Tables) → IsKept limit stored (D.told old) noted s t → CoversPages (D.told old) (D.told new) → ChangesPages (D.told old) (D.told new) → IsKept limit stored (D.told new) noted s t }
{}

/// What was noted, with more records behind it, is appended as one frame. A stop within leaves the committed tables from before
/// or those after, never others; once the frame is on the disk the latter are kept, and nothing is noted. They are the tables
/// from before with what these records commit.
pub fn append_laws<D: Disk>()
    ensures stop { (old new : D) (limit stored : ℕ) (noted more : List LogRecord) (s next : State) (t after : Tables) (body : List ℕ) → IsKept limit stored (D.told old) noted s t → SpellsRecords body (noted ++ more) → AppliesAll more s next → undone next ≡ Some after → MayAppend body (D.told old) (D.told new) → EachStop (D.told old) (D.told new) (LeavesEither limit t after) }
    ensures kept { (old new : D) (limit stored : ℕ) (noted more : List LogRecord) (s next : State) (t after : Tables) (body : List ℕ) → IsKept limit stored (D.told old) noted s t → SpellsRecords body (noted ++ more) → AppliesAll more s next → undone next ≡ Some after → MayAppend body (D.told old) (D.told new) → Appends body (D.told old) (D.told new) → IsKept limit stored (D.told new) [] next after }
    ensures commits { (disk : D) (limit stored : ℕ) (noted more : List LogRecord) (s next : State) (t : Tables) → IsKept limit stored (D.told disk) noted s t → AppliesAll more s next → undone next ≡ apply_all (commits_of more s.lists) t }
{}

/// A checkpoint of the state, made once what was noted is flushed. A stop within leaves the committed tables, by the last
/// checkpoint or by this one; then this one is kept.
pub fn checkpoint_laws<D: Disk>()
    ensures stop { (old new : D) (limit stored : ℕ) (s : State) (t : Tables) (next : Checkpoint) (head : Head) → IsKept limit stored (D.told old) [] s t → SavesAll next head limit (bodies ((D.told old).content 2)) s → MaySave stored next (D.told old) (D.told new) → EachStop (D.told old) (D.told new) (LeavesEither limit t t) }
    ensures kept { (old new : D) (limit stored : ℕ) (s : State) (t : Tables) (next : Checkpoint) (head : Head) → IsKept limit stored (D.told old) [] s t → SavesAll next head limit (bodies ((D.told old).content 2)) s → MaySave stored next (D.told old) (D.told new) → SavesPages next (D.told old) (D.told new) → IsKept limit next.count (D.told new) [] s t }
{}

/// Calls that leave the committed tables, with one behind them that may change these, leave the ones or the others.
pub fn behind_law<D: Disk>()
    ensures { (old mid new : D) (limit : ℕ) (t after : Tables) → EachStop (D.told old) (D.told mid) (LeavesEither limit t t) → EachStop (D.told mid) (D.told new) (LeavesEither limit t after) → EachStop (D.told old) (D.told new) (LeavesEither limit t after) }
{}

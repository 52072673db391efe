ghost use Rattle.std.specs.Prelude.{◌≡◌, ◌<◌, ◌++◌, [], ◌∷◌, ℕ, List, Some, drop};
ghost use Rattle.std.specs.List.{AllByRecursion};
ghost use Rattle.std.specs.Option.{option_and_then};
ghost use Rattle.wat_schema.specs.Tables.{Tables, apply_all};
ghost use Rattle.wat_log_record.specs.declared.log_record.LogRecord.{LogRecord};
ghost use Rattle.wat_log_record.specs.Bodies.{SpellsLog, SpellsRecords};
ghost use Rattle.wat_replay.specs.State.{State, IsLawful, connections, empty_state, undo, undone};
ghost use Rattle.wat_replay.specs.Replay.{Applies, AppliesAll, Replays};
ghost use Rattle.wat_replay.specs.Committed.{CommitsNothing, Restarts, commits_of, committed, open_lists};

/// What records make of states. A record that applies gives one state, and keeps a lawful state lawful.
/// Of a lawful state the latest changes of any one connection can be undone. Undoing all lists of what
/// the records reach gives what they have committed, which is told by the records alone.
pub fn replay_laws()
    ensures empty { IsLawful empty_state }
    ensures one { (entry : LogRecord) (s next other : State) → Applies entry s next → Applies entry s other → next ≡ other }
    ensures lawful { (entry : LogRecord) (s next : State) → IsLawful s → Applies entry s next → IsLawful next }
    ensures all_lawful { (entries : List LogRecord) (s last : State) → IsLawful s → AppliesAll entries s last → IsLawful last }
    ensures undoing { (s : State) (conn count : ℕ) → IsLawful s → conn < connections → (t : Tables) × (undo (drop count (s.lists conn)) s.tables ≡ Some t) }
    ensures committed { (entries : List LogRecord) (s : State) → Replays entries s → undone s ≡ committed entries }
    ensures reached { (entries : List LogRecord) (s last : State) (t : Tables) → IsLawful s → AppliesAll entries s last → undone s ≡ Some t → undone last ≡ apply_all (commits_of entries s.lists) t }
{}

/// What a log has committed. A frame more adds the transactions of its Commit and Schema records, and a
/// frame without such a record adds nothing. The bodies of a log restart to one state of the tables.
pub fn committed_laws()
    ensures frame { (entries more : List LogRecord) → committed (entries ++ more) ≡ option_and_then (apply_all (commits_of more (open_lists entries))) (committed entries) }
    ensures quiet { (entries more : List LogRecord) → AllByRecursion CommitsNothing more → committed (entries ++ more) ≡ committed entries }
    ensures body { (bodies : List (List ℕ)) (body : List ℕ) (entries more : List LogRecord) → SpellsLog bodies entries → SpellsRecords body more → SpellsLog (bodies ++ body ∷ []) (entries ++ more) }
    ensures restart { (bodies : List (List ℕ)) (t u : Tables) → Restarts bodies t → Restarts bodies u → t ≡ u }
{}

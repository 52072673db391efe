ghost use Rattle.std.specs.Prelude.{◌≡◌, ℕ, List, [], ◌∷◌, All, Some};
ghost use Rattle.wat_value.specs.declared.change.Act.{Act};
ghost use Rattle.wat_schema.specs.Tables.{IsTables, Tables, apply_all, no_tables};
ghost use Rattle.wat_commit_log.specs.Pending.{IsWritableAct};
ghost use Rattle.wat_commit_log.specs.Logged.{Restarts, Transaction};
ghost use Rattle.wat_commit_log.specs.Laws.{FrameAddsActs, IsCommitted, RestartsOnce};

/// The laws of restart: the same bytes give the same tables, those that the records of the log have committed; a new log,
/// which is one closed gate, gives none; and a log with one frame more, of a transaction whose acts apply, gives the tables
/// that these make.
pub fn restart_laws()
    ensures once { (content : List ℕ) → RestartsOnce content }
    ensures committed { (content : List ℕ) (t : Tables) → IsCommitted content t }
    ensures empty { Restarts (0 ∷ []) no_tables }
    ensures added { (old new : List ℕ) (t u : Tables) (transaction : Transaction) → FrameAddsActs old new t u transaction }
{}

/// Acts that apply to the tables of a database, one after another, can be written.
pub fn writing_law()
    ensures { (acts : List Act) (t u : Tables) → IsTables t → apply_all acts t ≡ Some u → All IsWritableAct acts }
{}

ghost use Rattle.std.specs.Prelude.{◌≡◌, ℕ};
ghost use Rattle.wat_disk.specs.Disk.{Image};
ghost use Rattle.wat_restore.specs.Head.{Head};
ghost use Rattle.wat_book.specs.Book.{Section};
ghost use Rattle.wat_schema.specs.Tables.{Tables};
ghost use Rattle.wat_replay.specs.State.{State, IsLawful};
ghost use Rattle.wat_files.specs.Formed.{IsFormed, IsSound, Stands, FailsAt, Opens, OneStart};

/// The walk over files goes one way: it comes to its end or stops, never both, and it stops at one place. So formed files
/// open to one state of the tables, whether their pages agree with their log or not.
pub fn walk_laws()
    ensures never_both { (files : Image) → IsFormed files → (file at : ℕ) → FailsAt files file at → ⊥ }
    ensures one_place { (files : Image) (f a g b : ℕ) → FailsAt files f a → FailsAt files g b → (f ≡ g) × (a ≡ b) }
    ensures opens_once { (files : Image) (t u : Tables) → Opens files t → Opens files u → t ≡ u }
{}

/// Sound files open to the tables that the records of their whole log have committed.
pub fn start_law()
    ensures { (files : Image) → IsSound files → OneStart files }
{}

/// What pages stand for is lawful, and so is the state behind the last record of formed files. So each connection's latest
/// changes can be undone, and formed files open.
pub fn formed_laws()
    ensures stands { (pages : Section) (head : Head) (s : State) → Stands pages head s → IsLawful s }
    ensures now { (files : Image) (formed : IsFormed files) → IsLawful formed.now }
    ensures opens { (files : Image) → IsFormed files → (t : Tables) × Opens files t }
{}

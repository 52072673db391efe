ghost use Rattle.std.specs.Prelude.{◌≡◌, ◌≢◌, ◌<◌, ◌∷◌, [], ℕ, List, nat_eq, false, true};
ghost use Rattle.std.specs.List.{list_any, IsDistinct};
ghost use Rattle.wat_book.specs.Book.{Book, Owners, nobody, header, Section, section, IsFreeChain, IsOwned, Works, WorksTo, with_owner, TakesPage, GivesPage, Writes, SameBook, SameButHeader};
ghost use Rattle.wat_book.specs.Chains.{IsChain, all_pages, BreaksAt};

/// The frame rule: the work of one owner leaves the pages of every other owner, so a fact on these goes on by itself; no
/// step is work, and work after work is work.
pub fn frame_law()
    ensures others { (me who : ℕ) (old new : Book) (owners next : Owners) → who ≢ me → who ≢ nobody → Works me old owners new next → section new next who ≡ section old owners who }
    ensures none { (me : ℕ) (old new : Book) (owners : Owners) → SameBook old new → Works me old owners new owners }
    ensures more { (me : ℕ) (a b c : Book) (x y z : Owners) → me ≢ nobody → Works me a x b y → Works me b y c z → Works me a x c z }
{}

/// What the calls of pages are in this: work of the owner who makes them, of its own page or of a free one. Reads and
/// checkpoints leave all owners' pages.
pub fn step_laws()
    ensures takes_free { (me here : ℕ) (rest : List ℕ) (old new : Book) (owners : Owners) → me ≢ nobody → IsOwned old owners (here ∷ rest) → TakesPage old new → WorksTo me old owners new (with_owner here me owners) rest }
    ensures takes_new { (me : ℕ) (old new : Book) (owners : Owners) → me ≢ nobody → IsOwned old owners [] → TakesPage old new → WorksTo me old owners new (with_owner old.count me owners) [] }
    ensures gives { (me page : ℕ) (free : List ℕ) (old new : Book) (owners : Owners) → me ≢ nobody → me ≢ header → page < old.count → owners page ≡ me → IsOwned old owners free → GivesPage page old new → WorksTo me old owners new (with_owner page nobody owners) (page ∷ free) }
    ensures writes { (me page : ℕ) (bytes : List ℕ) (free : List ℕ) (old new : Book) (owners : Owners) → me ≢ nobody → owners page ≡ me → IsOwned old owners free → Writes page bytes old new → WorksTo me old owners new owners free }
    ensures same { (old new : Book) (owners : Owners) (free : List ℕ) → SameBook old new → IsOwned old owners free → IsOwned new owners free }
    ensures saved { (old new : Book) (owners : Owners) (free : List ℕ) → SameButHeader old new → IsOwned old owners free → IsOwned new owners free }
    ensures saved_others { (old new : Book) (owners : Owners) → SameButHeader old new → owners 0 ≡ header → (who : ℕ) → who ≢ header → section new owners who ≡ section old owners who }
{}

/// No page comes twice in a free list.
pub fn chain_law()
    ensures { (pages : Section) (first here : ℕ) (rest : List ℕ) → IsFreeChain pages first (here ∷ rest) → list_any (nat_eq here) rest ≡ false }
{}

/// One chain begins at a page, with one payload; no page comes twice in it, and it breaks nowhere. A chain of one owner's
/// pages is one whoever has them.
pub fn payload_laws()
    ensures one { (pages : Section) (first : ℕ) (a b x y : List ℕ) → IsChain pages first a x → IsChain pages first b y → (a ≡ b) × (x ≡ y) }
    ensures once { (pages : Section) (first : ℕ) (list payload : List ℕ) → IsChain pages first list payload → IsDistinct nat_eq list }
    ensures sound { (pages : Section) (first here : ℕ) (list payload : List ℕ) → IsChain pages first list payload → BreaksAt pages [] first here → ⊥ }
    ensures owned { (book : Book) (owners : Owners) (who first : ℕ) (list payload : List ℕ) → IsChain (section book owners who) first list payload → IsChain (all_pages book) first list payload }
{}

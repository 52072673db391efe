ghost use Rattle.std.specs.Prelude.{◌≡◌, ◌≤◌, ◌<◌, ℕ, List};
ghost use Rattle.wat_disk.specs.Disk.{Image};
ghost use Rattle.wat_restore.specs.Head.{Head, IsHead};
ghost use Rattle.wat_restore.specs.Restored.{Checkpoint};
ghost use Rattle.wat_book.specs.Book.{Book, Owners};
ghost use Rattle.wat_book.specs.Chains.{all_pages, IsReadChain, BreaksAt};
ghost use Rattle.wat_replay.specs.State.{State};
ghost use Rattle.wat_files.specs.Formed.{HasHeader, Stands};
ghost use Rattle.wat_files.specs.Pages.{first_pages};
ghost use Rattle.wat_keeping.specs.Durable.{Saves};
ghost use Rattle.wat_files.specs.Chains.{Chains, HasChains};
ghost use Rattle.wat_held.specs.Held.{HoldsState, IsHeadOf, HasPagesOf};
ghost use Rattle.wat_held.specs.Owning.{AreOwned, ReadsAs, HasStored};

/// Where the objects hold a state on their own pages, all pages together stand for it, by a header that tells their count and
/// their first free page. So a checkpoint that has such a header, and all other pages as they are, saves the state.
pub fn held_laws()
    ensures stands { (book : Book) (owners : Owners) (free : List ℕ) (head : Head) (s : State) → HoldsState book owners free head s → IsHeadOf head book → Stands (all_pages book) head s }
    ensures saves { (book : Book) (owners : Owners) (free : List ℕ) (head : Head) (s : State) (saved : Checkpoint) → HoldsState book owners free head s → IsHeadOf head book → HasPagesOf saved book → IsHead (saved.page 0) head → Saves saved head s }
{}

/// Where the header leads to two chains and a list of free pages, each page has an owner: so the objects begin on pages of
/// their own.
pub fn owned_law()
    ensures { (book : Book) (head : Head) (chains : Chains) → 0 < book.count → HasChains (all_pages book) head chains → head.free ≡ book.first_free → AreOwned book head chains }
{}

/// Where files stand for a state, pages that read as the files have them stand for it too, and each of them has an owner.
pub fn opened_law()
    ensures stands { (files : Image) (head : Head) (s : State) (book : Book) → HasHeader files head → Stands (first_pages files head.count) head s → ReadsAs book files head → Stands (all_pages book) head s }
    ensures owned { (files : Image) (head : Head) (s : State) (book : Book) → HasHeader files head → (stands : Stands (first_pages files head.count) head s) → ReadsAs book files head → AreOwned book head stands.chains }
{}

/// A chain that is read of pages is one of the files that they are stored in, and where it breaks it breaks there: at the
/// same page, also where this page isn't in the files.
pub fn linked_law()
    ensures reads { (book : Book) (files : Image) → HasStored book files → (met : List ℕ) (first : ℕ) (list payload : List ℕ) → IsReadChain (all_pages book) met first list payload → IsReadChain (first_pages files book.count) met first list payload }
    ensures breaks { (book : Book) (files : Image) → HasStored book files → (met : List ℕ) (first here : ℕ) → BreaksAt (all_pages book) met first here → BreaksAt (first_pages files book.count) met first here }
{}

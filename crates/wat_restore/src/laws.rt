ghost use Rattle.std.specs.Prelude.{◌≡◌, ℕ, List};
ghost use Rattle.wat_disk.specs.Disk.{Image};
ghost use Rattle.wat_restore.specs.Head.{Head, IsHead};
ghost use Rattle.wat_restore.specs.Restored.{Checkpoint, IsCovered, RestoresTo, StandsIn};

/// The laws of restoring: where each page of a checkpoint is in the files, main with the images laid over it has all its
/// pages; a page is in the files with one list of bytes alone; and a page tells one header alone.
pub fn restore_laws()
    ensures restores { (saved : Checkpoint) (files : Image) → IsCovered saved files → RestoresTo saved files }
    ensures one_page { (files : Image) (page : ℕ) (a b : List ℕ) → StandsIn files page a → StandsIn files page b → a ≡ b }
    ensures one_head { (page : List ℕ) (a b : Head) → IsHead page a → IsHead page b → a ≡ b }
{}

// The two chains, and the checkpoint that they go into.
ghost use Rattle.std.specs.Prelude.{◌≡◌, ◌<◌, ◌≤◌, ◌^◌, [], Err, length, IfOk, IfErr, OnOk};
ghost use Rattle.wat_disk.specs.Disk.{EachStop};
ghost use Rattle.wat_faults.specs.Faults.{HasCause};
ghost use Rattle.wat_gate.specs.Bodies.{bodies};
ghost use Rattle.wat_restore.specs.Restored.{Checkpoint, OnlyPages};
ghost use Rattle.wat_restore.specs.Safe.{IsSafe, CoversEither};
ghost use Rattle.wat_images.specs.Refusal.{IfDamaged, IfPageLimit};
ghost use Rattle.wat_pages.specs.Pages.{count_of, limit_of, stored_of, header_of, IsPagesOf, next_checkpoint};
ghost use Rattle.wat_replay.specs.State.{State, IsLawful};
ghost use Rattle.wat_cells.specs.Going.{Goes, Keeps};
ghost use Rattle.wat_objects.specs.declared.chains.Roots.{Roots as AnyRoots};

use crate::Objects;
use wat_disk::Disk;
use wat_pages::{Header, PageRefusal};

/// What a checkpoint's header says beside the log: the first pages of the two chains (0 where no change can be rolled back),
/// and the number of the next table.
#[derive(Clone, Copy, Debug, PartialEq, Eq)]
pub struct Roots {
    pub catalog: u32,
    pub rollback: u32,
    pub next_table: u32,
}

impl Objects {
    ghost use Rattle.wat_objects.specs.Objects.{pages_of, undo_of, Holds};
    ghost use Rattle.wat_objects.specs.Chains.{HoldsRoots};

    /// Writes the changes to roll back on their chain, and answers what a checkpoint's header says beside the log. Fewer than
    /// 65,536 connections have changes.
    ///
    /// The chain that the last checkpoint's header names is written over. So after this call the objects hold no state until a
    /// checkpoint with these roots is made.
    pub fn write_lists<D: Disk>(&mut self, disk: &mut D) -> Result<Roots, PageRefusal>
        requires known { D.tells_content → IsPagesOf (D.told disk.old) (pages_of self.old) }
        requires few { length (undo_of self.old) < 2 ^ 16 }
        ensures state { D.tells_content → (s : State) → Holds (D.told disk.old) self.old s → IsLawful s → IfOk result (λ roots. HoldsRoots (D.told disk.new) self.new roots s) }
        ensures goes { D.tells_content → Goes (D.told disk.old) (D.told disk.new) (pages_of self.old) (pages_of self.new) }
        ensures keeps { D.tells_content → OnOk result (Keeps (D.told disk.old) (D.told disk.new) (pages_of self.new)) }
        ensures undamaged { D.tells_content → (saved : Checkpoint) → IsSafe saved (D.told disk.old) → saved.count ≡ stored_of (pages_of self.old) → (s : State) → Holds (D.told disk.old) self.old s → IfErr result (λ refusal. IfDamaged refusal (λ file at. ⊥)) }
        ensures limited { IfErr result (λ refusal. IfPageLimit refusal (λ count limit. (limit ≡ 4294967295) × (limit ≤ count))) }
        ensures cause { HasCause (D.told disk.old).faults (D.told disk.new).faults (result ≡ Err PageRefusal.DiskFault) }
    {
        match self.undo.save(&mut self.pages, disk) {
            Ok(rollback) => Ok(Roots {
                catalog: self.catalog,
                rollback,
                next_table: self.schema.next(),
            }),
            Err(refusal) => Err(refusal),
        }
    }

    /// Makes the pages now, with this header, the checkpoint.
    pub fn checkpoint<D: Disk>(&mut self, disk: &mut D, header: &Header) -> Result<(), PageRefusal>
        requires known { D.tells_content → IsPagesOf (D.told disk.old) (pages_of self.old) }

        // A stop at any moment leaves the last checkpoint or the new one, and after the call the new one.
        ensures stops { D.tells_content → (saved : Checkpoint) → IsSafe saved (D.told disk.old) → saved.count ≡ stored_of (pages_of self.old)
            → EachStop (D.told disk.old) (D.told disk.new) (CoversEither saved (next_checkpoint (D.told disk.old) (pages_of self.old) header.now)) }
        ensures safe { D.tells_content → (saved : Checkpoint) → IsSafe saved (D.told disk.old) → saved.count ≡ stored_of (pages_of self.old)
            → OnOk result (IsSafe (next_checkpoint (D.told disk.old) (pages_of self.old) header.now) (D.told disk.new)) }

        // Where the chains are written and the header has their roots, the objects hold the state again.
        ensures holds { D.tells_content → (saved : Checkpoint) → IsSafe saved (D.told disk.old) → saved.count ≡ stored_of (pages_of self.old) → (s : State) (roots : AnyRoots) → HoldsRoots (D.told disk.old) self.old roots s
            → header.now.catalog ≡ roots.catalog → header.now.rollback ≡ roots.rollback → header.now.next_table ≡ roots.next_table → OnOk result (Holds (D.told disk.new) self.new s) }

        // The before file has no images then, and the header is the one that was given.
        ensures none { D.tells_content → OnOk result (bodies ((D.told disk.new).content 1) ≡ []) }
        ensures header { OnOk result (header_of (pages_of self.new) ≡ header.now) }
        ensures stored { OnOk result (stored_of (pages_of self.new) ≡ count_of (pages_of self.old)) }
        ensures limit { limit_of (pages_of self.new) ≡ limit_of (pages_of self.old) }
        ensures known { D.tells_content → OnOk result (IsPagesOf (D.told disk.new) (pages_of self.new)) }
        ensures others { OnlyPages (D.told disk.old).content (D.told disk.new).content }
        ensures undamaged { D.tells_content → (saved : Checkpoint) → IsSafe saved (D.told disk.old) → saved.count ≡ stored_of (pages_of self.old) → IfErr result (λ refusal. IfDamaged refusal (λ file at. ⊥)) }
        ensures limited { IfErr result (λ refusal. IfPageLimit refusal (λ count limit. ⊥)) }
        ensures cause { HasCause (D.told disk.old).faults (D.told disk.new).faults (result ≡ Err PageRefusal.DiskFault) }
    {
        match self.pages.checkpoint(disk, header) {
            Ok(()) => Ok(()),
            Err(refusal) => Err(refusal),
        }
    }
}

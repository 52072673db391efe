// The changes of connections on a chain of pages.
ghost use Rattle.std.specs.Prelude.{◌≡◌, ◌≢◌, ◌⊎◌, ◌+◌, ◌-◌, ◌*◌, ◌<◌, ◌≤◌, ◌^◌, [], ℕ, List, length, OnOk, IfOk, IfErr};
ghost use Rattle.wat_disk.specs.Disk.{EachStop};
ghost use Rattle.wat_faults.specs.Faults.{HasCause};
ghost use Rattle.wat_restore.specs.Restored.{Checkpoint, OnlyPages};
ghost use Rattle.wat_restore.specs.Safe.{IsSafe, Covers};
ghost use Rattle.wat_book.specs.Book.{Owners, nobody, header, section, SameBook, IsOwned, Worked};
ghost use Rattle.wat_book.specs.Chains.{HoldsPayload, all_pages};
ghost use Rattle.wat_images.specs.Refusal.{IfDamaged, IfPageLimit};
ghost use Rattle.wat_pages.specs.Pages.{count_of, limit_of, stored_of, header_of, IsPagesOf, SameHead, book_of};
ghost use Rattle.wat_replay.specs.State.{Lists};
ghost use Rattle.wat_undo.specs.Kept.{lists_of};
ghost use Rattle.wat_undo.specs.Payload.{payload_of, HoldsLists, LoadsLists, FailsToLoad};

use crate::Undo;
use std::alloc::Global;
use wat_disk::{Disk, FileId};
use wat_pages::{PageRefusal, Pages, Within};
use wat_payload::{read_chain, write_chain};

impl Undo {
    /// Writes the lists on the chain of pages that the last checkpoint's header names, or on a new one where it names none,
    /// and answers the first page, or 0 where no connection has changes. Fewer than 65,536 connections have some.
    ///
    /// The chain has as few pages as the lists need. `PageLimit` comes exactly where too few pages are free and the count of
    /// pages comes to 4,294,967,295.
    pub fn save<D: Disk>(&self, pages: &mut Pages, disk: &mut D) -> Result<u32, PageRefusal>
        requires known { D.tells_content → IsPagesOf (D.told disk.old) pages.old }
        requires few { length self.now < 2 ^ 16 }

        // The pages of the owner hold the lists then, and those of all others are as before.
        ensures saved { D.tells_content → (me : ℕ) (owners : Owners) (free before : List ℕ) → me ≢ nobody → me ≢ header → IsOwned (book_of (D.told disk.old) pages.old) owners free
            → HoldsPayload (section (book_of (D.told disk.old) pages.old) owners me) (header_of pages.old).rollback before
            → IfOk result (λ now. Worked me (book_of (D.told disk.old) pages.old) owners (book_of (D.told disk.new) pages.new) (λ mine. HoldsLists mine now (lists_of self.now))) }

        ensures limit { limit_of pages.new ≡ limit_of pages.old }
        ensures stored { stored_of pages.new ≡ stored_of pages.old }
        ensures header { header_of pages.new ≡ header_of pages.old }
        ensures known { D.tells_content → OnOk result (IsPagesOf (D.told disk.new) pages.new) }
        ensures others { OnlyPages (D.told disk.old).content (D.told disk.new).content }

        // Where a stop leaves a checkpoint before the call, it leaves that one during it and after it.
        ensures stops { D.tells_content → (saved : Checkpoint) → IsSafe saved (D.told disk.old) → EachStop (D.told disk.old) (D.told disk.new) (Covers saved) }
        ensures safe { D.tells_content → (saved : Checkpoint) → IsSafe saved (D.told disk.old) → OnOk result (IsSafe saved (D.told disk.new)) }

        ensures within { D.tells_content → OnOk result ((count_of pages.new ≡ count_of pages.old) ⊎ (count_of pages.new ≤ 4294967295)) }
        ensures limited { IfErr result (λ refusal. IfPageLimit refusal (λ count limit. (count_of pages.old ≤ count) × (limit ≡ 4294967295) × (limit ≤ count))) }
        ensures needed { D.tells_content → (me : ℕ) (owners : Owners) (free before : List ℕ) → me ≢ nobody → me ≢ header → IsOwned (book_of (D.told disk.old) pages.old) owners free
            → (held : HoldsPayload (section (book_of (D.told disk.old) pages.old) owners me) (header_of pages.old).rollback before)
            → IfErr result (λ refusal. IfPageLimit refusal (λ count limit. 4080 * (length held.list + length free + (limit - count_of pages.old)) < length (payload_of self.now))) }

        ensures undamaged { D.tells_content → (saved : Checkpoint) (me : ℕ) (owners : Owners) (free before : List ℕ) → IsSafe saved (D.told disk.old) → saved.count ≡ stored_of pages.old → me ≢ nobody → me ≢ header
            → IsOwned (book_of (D.told disk.old) pages.old) owners free → HoldsPayload (section (book_of (D.told disk.old) pages.old) owners me) (header_of pages.old).rollback before
            → IfErr result (λ refusal. IfDamaged refusal (λ file at. ⊥)) }
        ensures cause { HasCause (D.told disk.old).faults (D.told disk.new).faults (result ≡ Err PageRefusal.DiskFault) }
    {
        let payload = self.payload()?;
        let first = pages.header().rollback;
        match write_chain(
            self.allocator(),
            pages,
            disk,
            first,
            payload.as_slice(),
            Within::Any,
        ) {
            Ok(now) => Ok(now),
            Err(refusal) => Err(refusal),
        }
    }

    /// Reads the lists on the chain of pages that begins at a page; none where that is 0.
    ///
    /// `Damaged` tells a page, in bytes from the start of the main file: the first page that breaks the rules of a chain, or
    /// else the first page of a chain that is no lists of connections in ascending order.
    pub fn load<D: Disk>(
        alloc: Global,
        pages: &mut Pages,
        disk: &mut D,
        first: u32,
    ) -> Result<Undo, PageRefusal>
        requires known { D.tells_content → IsPagesOf (D.told disk.old) pages.old }

        ensures loaded { D.tells_content → IfOk result (λ undo. LoadsLists (all_pages (book_of (D.told disk.old) pages.old)) first (lists_of undo)) }
        ensures damaged { D.tells_content → IfErr result (λ refusal. IfDamaged refusal (λ file at. (file ≡ 0) × (here : ℕ) × (at ≡ 4096 * here) × FailsToLoad (all_pages (book_of (D.told disk.old) pages.old)) first here)) }

        // What was saved is loaded.
        ensures saved { D.tells_content → (me : ℕ) (owners : Owners) (lists : Lists) → HoldsLists (section (book_of (D.told disk.old) pages.old) owners me) first lists → IfOk result (λ undo. lists_of undo ≡ lists) }
        ensures undamaged { D.tells_content → (me : ℕ) (owners : Owners) (lists : Lists) → HoldsLists (section (book_of (D.told disk.old) pages.old) owners me) first lists → IfErr result (λ refusal. IfDamaged refusal (λ file at. ⊥)) }

        ensures limited { IfErr result (λ refusal. IfPageLimit refusal (λ count limit. ⊥)) }
        ensures same { SameHead pages.old pages.new }
        ensures pages { D.tells_content → OnOk result (SameBook (book_of (D.told disk.old) pages.old) (book_of (D.told disk.new) pages.new)) }
        ensures known { D.tells_content → OnOk result (IsPagesOf (D.told disk.new) pages.new) }
        ensures others { OnlyPages (D.told disk.old).content (D.told disk.new).content }

        // Where a stop leaves a checkpoint before the call, it leaves that one during it and after it.
        ensures stops { D.tells_content → (saved : Checkpoint) → IsSafe saved (D.told disk.old) → EachStop (D.told disk.old) (D.told disk.new) (Covers saved) }
        ensures safe { D.tells_content → (saved : Checkpoint) → IsSafe saved (D.told disk.old) → OnOk result (IsSafe saved (D.told disk.new)) }

        ensures cause { HasCause (D.told disk.old).faults (D.told disk.new).faults (result ≡ Err PageRefusal.DiskFault) }
    {
        let chain = match read_chain(alloc, pages, disk, first, &[]) {
            Ok(chain) => chain,
            Err(refusal) => return Err(refusal),
        };
        if first == 0 {
            return Ok(Undo::new(alloc));
        }
        match Undo::from_payload(alloc, chain.payload.as_slice()) {
            Ok(Some(undo)) => Ok(undo),
            Ok(None) => Err(PageRefusal::Damaged {
                file: FileId(0),
                at: 4096 * u64::from(first),
            }),
            Err(_) => Err(PageRefusal::Memory),
        }
    }
}

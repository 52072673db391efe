// Checkpoints: images, pages, the header, a sync, and no images any more.
ghost use Rattle.std.specs.Prelude.{◌≡◌, ◌<◌, ◌++◌, [], ◌∷◌, ℕ, nat_eq, nat_lt, false, OnOk, IfOk, IfErr, IsErr};
ghost use Rattle.std.specs.BTreeMap.{keys, IsOrdered};
ghost use Rattle.std.specs.Ordering.{nat_cmp};
ghost use Rattle.std.specs.List.{list_any, filter};
ghost use Rattle.std.specs.Map.{lookup};
ghost use Rattle.wat_disk.specs.Disk.{EachStop};
ghost use Rattle.wat_faults.specs.Faults.{HasCause};
ghost use Rattle.wat_gate.specs.Bodies.{bodies};
ghost use Rattle.wat_gate.specs.GateLog.{file_of, IsLogOf};
ghost use Rattle.wat_restore.specs.Restored.{images_in, laid, Checkpoint, OnlyPages};
ghost use Rattle.wat_restore.specs.Safe.{IsSafe, Covers, CoversEither, HasPages};
ghost use Rattle.wat_restore.specs.Images.{AllWhole};
ghost use Rattle.wat_images.specs.Refusal.{IfDamaged, IfPageLimit};

use crate::PageRefusal;
use crate::main_file::{write_all, write_synced_pages};
use crate::saving::save_images;
use std::alloc::Global;
use std::collections::BTreeMap;
use wat_disk::{Disk, DiskFault};
use wat_gate::GateLog;
use wat_list::NoMemory;
use wat_slot::Page;

// The pages below a count, and then the header's.
fn pages_below(alloc: Global, pages: &BTreeMap<u32, Page>, count: u32) -> Result<Vec<u32>, NoMemory>
    ensures pages { IfOk result (λ found. found.items ≡ filter (λ page. nat_lt page count) (keys pages.now) ++ 0 ∷ []) }
    ensures ordered { IsOrdered nat_cmp pages.now }
{
    let mut found: Vec<u32> = pages
        .keys()
        .copied()
        .filter(|page| *page < count)
        .collect(alloc)?;
    found.push(0)?;
    Ok(found)
}

/// Makes a checkpoint of these pages, page by number, and of the header: appends the images of those pages that the last
/// checkpoint had, `count` in number, at most 487 images in a frame; writes the pages, and then the header; syncs main; and
/// clears the images, by which the new checkpoint takes the old one's place.
pub fn save_checkpoint<D: Disk>(
    alloc: Global,
    disk: &mut D,
    before: &mut GateLog,
    pages: &BTreeMap<u32, Page>,
    count: u32,
    header: &Page,
) -> Result<(), PageRefusal>
    requires known { D.tells_content → IsLogOf (D.told disk.old) before.old }
    requires file { file_of before.old ≡ 1 }
    requires none { D.tells_content → bodies ((D.told disk.old).content 1) ≡ [] }
    requires not_header { list_any (nat_eq 0) (keys pages.now) ≡ false }

    ensures known { D.tells_content → OnOk result (IsLogOf (D.told disk.new) before.new) }
    ensures file { file_of before.new ≡ 1 }
    ensures none { D.tells_content → OnOk result (bodies ((D.told disk.new).content 1) ≡ []) }
    ensures written { D.tells_content → OnOk result ((D.told disk.new).content 0 ≡ laid ((D.told disk.old).content 0) (pages.now.entries ++ (0, header.now) ∷ [])) }
    ensures ordered { IsOrdered nat_cmp pages.now }
    ensures others { OnlyPages (D.told disk.old).content (D.told disk.new).content }

    // At `Ok` each stop leaves the new checkpoint.
    ensures safe { D.tells_content → (saved next : Checkpoint) → IsSafe saved (D.told disk.old) → saved.count ≡ count → 0 < count
        → HasPages (laid ((D.told disk.old).content 0) (pages.now.entries ++ (0, header.now) ∷ [])) next
        → OnOk result (IsSafe next (D.told disk.new)) }

    // A stop at any moment leaves the old checkpoint or the new one.
    ensures stops { D.tells_content → (saved next : Checkpoint) → IsSafe saved (D.told disk.old) → saved.count ≡ count → 0 < count
        → HasPages (laid ((D.told disk.old).content 0) (pages.now.entries ++ (0, header.now) ∷ [])) next
        → EachStop (D.told disk.old) (D.told disk.new) (CoversEither saved next) }

    // Where a stop leaves the old checkpoint, all its pages are in the files.
    ensures undamaged { D.tells_content → (saved : Checkpoint) → IsSafe saved (D.told disk.old) → saved.count ≡ count → 0 < count
        → IfErr result (λ refusal. IfDamaged refusal (λ file at. ⊥)) }
    ensures limited { IfErr result (λ refusal. IfPageLimit refusal (λ count limit. ⊥)) }
    ensures cause { HasCause (D.told disk.old).faults (D.told disk.new).faults (result ≡ Err PageRefusal.DiskFault) }
{
    let old = pages_below(alloc, pages, count)?;
    save_images(alloc, disk, before, old.as_slice())?;
    write_all(disk, pages, header)?;
    before.clear(disk)?;
    Ok(())
}

/// Writes the pages that have images as these tell them, syncs main, and clears the images: what a stop in a checkpoint
/// has left is as the last checkpoint was.
pub fn lay_images<D: Disk>(
    disk: &mut D,
    log: &mut GateLog,
    images: &BTreeMap<u32, Page>,
) -> Result<(), DiskFault>
    requires known { D.tells_content → IsLogOf (D.told disk.old) log.old }
    requires file { file_of log.old ≡ 1 }
    requires whole { AllWhole images.now.entries }
    requires images { D.tells_content → (page : ℕ) → lookup (nat_eq page) images.now.entries ≡ lookup (nat_eq page) (images_in ((D.told disk.old).content 1)) }

    ensures known { D.tells_content → OnOk result (IsLogOf (D.told disk.new) log.new) }
    ensures file { file_of log.new ≡ 1 }
    ensures none { D.tells_content → OnOk result (bodies ((D.told disk.new).content 1) ≡ []) }
    ensures others { OnlyPages (D.told disk.old).content (D.told disk.new).content }

    // Where a stop leaves a checkpoint before the call, it leaves that one during it and after it.
    ensures stops { D.tells_content → (saved : Checkpoint) → IsSafe saved (D.told disk.old) → EachStop (D.told disk.old) (D.told disk.new) (Covers saved) }
    ensures safe { D.tells_content → (saved : Checkpoint) → IsSafe saved (D.told disk.old) → OnOk result (IsSafe saved (D.told disk.new)) }

    ensures cause { HasCause (D.told disk.old).faults (D.told disk.new).faults (IsErr result) }
{
    write_synced_pages(disk, images)?;
    log.clear(disk)?;
    Ok(())
}

// A checkpoint of the store's parts.
ghost use Rattle.std.specs.Prelude.{◌≡◌, ◌<◌, ◌≤◌, ◌^◌, [], ℕ, length, IfErr, OnOk};
ghost use Rattle.wat_faults.specs.Faults.{HasCause};
ghost use Rattle.wat_gate.specs.Bodies.{bodies};
ghost use Rattle.wat_images.specs.Refusal.{IfDamaged, IfPageLimit};
ghost use Rattle.wat_pages.specs.Pages.{limit_of, header_of, next_head};
ghost use Rattle.wat_schema.specs.Tables.{Tables};
ghost use Rattle.wat_log.specs.Log.{HasNoted, IsOpenLog, noted_bytes};
ghost use Rattle.wat_replay.specs.State.{State};
ghost use Rattle.wat_objects.specs.Objects.{pages_of, undo_of};
ghost use Rattle.wat_objects.specs.Chains.{header_with};
ghost use Rattle.wat_store.specs.Parts.{AreOpen, HoldsSafe, IsStore, StopsAt};
ghost use Rattle.wat_store.specs.Saving.{CountsLog, Fits};

use crate::composed::fit;
use crate::steps::settle;
use wat_disk::Disk;
use wat_log::Log;
use wat_objects::{Objects, Roots};
use wat_pages::{Header, PageRefusal};

/// The header of a checkpoint now: it counts all frames of the log. No call is made for it.
fn header_now<D: Disk>(disk: &mut D, objects: &Objects, log: &Log, roots: &Roots) -> Header
    requires known { D.tells_content → IsOpenLog (D.told disk.old) log.now }

    ensures is { result ≡ header_with roots.now result.frames result.place }
    ensures counts { D.tells_content → CountsLog (D.told disk.old) result }
    ensures fits { Fits (next_head (pages_of objects.now) result) }
    ensures disk { disk.new ≡ disk.old }
{
    let frames = log.frames();
    let place = match log.place(disk, frames) {
        Ok(place) => place,
        Err(_refusal) => unreachable!(),
    };
    let pages = objects.pages();
    let limit = pages.limit();
    let count = pages.count();
    let first_free = pages.first_free();
    let catalog = roots.catalog;
    let rollback = roots.rollback;
    let next_table = roots.next_table;
    fit(
        limit, count, first_free, frames, place, catalog, rollback, next_table,
    );
    Header {
        frames,
        place,
        catalog,
        rollback,
        next_table,
    }
}

/// Makes the state now the checkpoint, with all frames of the log behind it.
pub(crate) fn save_all<D: Disk>(
    disk: &mut D,
    objects: &mut Objects,
    log: &mut Log,
) -> Result<(), PageRefusal>
    requires known { D.tells_content → AreOpen (D.told disk.old) objects.old log.old }
    requires few { length (undo_of objects.old) < 2 ^ 16 }

    ensures known { D.tells_content → OnOk result (AreOpen (D.told disk.new) objects.new log.new) }
    ensures flushed { OnOk result (noted_bytes log.new ≡ []) }
    ensures room { OnOk result (length (noted_bytes log.new) ≤ 1048576) }
    ensures none { D.tells_content → OnOk result (bodies ((D.told disk.new).content 1) ≡ []) }
    ensures saved { D.tells_content → OnOk result (CountsLog (D.told disk.new) (header_of (pages_of objects.new))) }
    ensures stands { D.tells_content → (s : State) (t : Tables) → IsStore (D.told disk.old) objects.old log.old s t → OnOk result (IsStore (D.told disk.new) objects.new log.new s t) }
    ensures stops { D.tells_content → (s : State) (t : Tables) → IsStore (D.told disk.old) objects.old log.old s t → StopsAt (D.told disk.old) (D.told disk.new) objects.old t t }
    ensures limit { D.tells_content → limit_of (pages_of objects.new) ≡ limit_of (pages_of objects.old) }
    ensures holds { D.tells_content → (s : State) → HoldsSafe (D.told disk.old) objects.old s → OnOk result (HoldsSafe (D.told disk.new) objects.new s) }
    ensures undamaged { D.tells_content → (s : State) → HoldsSafe (D.told disk.old) objects.old s → IfErr result (λ refusal. IfDamaged refusal (λ file at. ⊥)) }
    ensures limited { IfErr result (λ refusal. IfPageLimit refusal (λ count limit. (limit ≡ 4294967295) × (limit ≤ count))) }
    ensures cause { HasCause (D.told disk.old).faults (D.told disk.new).faults (result ≡ Err PageRefusal.DiskFault) }
{
    settle(disk, objects, log)?;
    let roots = objects.write_lists(disk)?;
    let header = header_now(disk, objects, log, &roots);
    objects.checkpoint(disk, &header)?;
    Ok(())
}

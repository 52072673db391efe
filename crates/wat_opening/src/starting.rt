// From the files as they are read to a store.
ghost use Rattle.std.specs.Prelude.{◌≡◌, ◌≤◌, ◌||◌, [], ℕ, Some, length, not, true, IfOk, IfErr};
ghost use Rattle.wat_disk.specs.Disk.{EachStop};
ghost use Rattle.wat_faults.specs.Faults.{Rose};
ghost use Rattle.wat_gate.specs.Bodies.{bodies};
ghost use Rattle.wat_restore.specs.Head.{Head};
ghost use Rattle.wat_images.specs.Refusal.{IfDamaged, IfPageLimit};
ghost use Rattle.wat_pages.specs.Pages.{limit_of, header_of};
ghost use Rattle.wat_schema.specs.Tables.{Tables};
ghost use Rattle.wat_log.specs.Log.{noted_bytes};
ghost use Rattle.wat_replay.specs.State.{State, undone};
ghost use Rattle.wat_files.specs.Formed.{AppliesBodies, FailsInRecords};
ghost use Rattle.wat_keeping.specs.Durable.{LeavesEither};
ghost use Rattle.wat_objects.specs.Objects.{pages_of};
ghost use Rattle.wat_repeating.specs.OnPages.{IsFull};
ghost use Rattle.wat_store.specs.Parts.{AreOpen, IsStore, HoldsSafe, StopsAt};
ghost use Rattle.wat_store.specs.Saving.{CountsLog};
ghost use Rattle.wat_store.specs.Store.{told_of, limit_in, noted_in, IsStoreOf, HoldsIn, CountsAll};
ghost use Rattle.wat_opening.specs.Opening.{settled, LeavesPages};
ghost use Rattle.wat_opening.specs.Bringing.{AreRead, IsRead, later_in};

use crate::bringing::bring_up;
use crate::refusal::Refused;
use std::alloc::Global;
use wat_disk::Disk;
use wat_gate::GatePlace;
use wat_loading::Loaded;
use wat_log::Log;
use wat_objects::Objects;
use wat_pages::PageRefusal;
use wat_repeating::OnPages;
use wat_store::Store;

/// Whether a checkpoint is due: there was something to do, or a stop has left images.
fn is_due(done: bool, images: bool) -> bool
    ensures { result ≡ (done || images) }
{
    done || images
}

/// The store of these parts, with a checkpoint where one is due.
fn finish<D: Disk>(disk: D, objects: Objects, log: Log, due: bool) -> Result<Store<D>, Refused<D>>
    requires known { D.tells_content → AreOpen (D.told disk) objects log }
    requires room { length (noted_bytes log) ≤ 1048576 }

    ensures stands { D.tells_content → (s : State) (t : Tables) → IsStore (D.told disk) objects log s t → IfOk result (λ store. IsStoreOf store s t) }
    ensures holds { D.tells_content → (s : State) → HoldsSafe (D.told disk) objects s → IfOk result (λ store. HoldsIn store s) }
    ensures saved { D.tells_content → (not due ≡ true → CountsLog (D.told disk) (header_of (pages_of objects))) → IfOk result (λ store. CountsAll store) }
    ensures none { D.tells_content → IfOk result (λ store. bodies ((told_of store).content 1) ≡ []) }
    ensures flushed { (not due ≡ true → noted_bytes log ≡ []) → IfOk result (λ store. noted_in store ≡ []) }
    ensures limit { D.tells_content → IfOk result (λ store. limit_in store ≡ limit_of (pages_of objects)) }
    ensures stops { D.tells_content → (s : State) (t : Tables) → IsStore (D.told disk) objects log s t → IfOk result (λ store. StopsAt (D.told disk) (told_of store) objects t t) }
    ensures stops_refused { D.tells_content → (s : State) (t : Tables) → IsStore (D.told disk) objects log s t → IfErr result (λ refused. StopsAt (D.told disk) (D.told refused.disk) objects t t) }
    ensures undamaged { D.tells_content → (s : State) → HoldsSafe (D.told disk) objects s → IfErr result (λ refused. IfDamaged refused.why (λ file at. ⊥)) }
    ensures limited { IfErr result (λ refused. IfPageLimit refused.why IsFull) }
    ensures cause { IfErr result (λ refused. refused.why ≡ PageRefusal.DiskFault → Rose (D.told disk).faults (D.told refused.disk).faults) }
{
    let many = objects.open_count() > 65_535;
    let images = objects.pages().has_images();
    let mut store = Store::of(disk, objects, log);
    if !is_due(due, images) {
        return Ok(store);
    }
    if many {
        return Err(Refused {
            why: PageRefusal::Memory,
            disk: store.into_disk(),
        });
    }
    match store.checkpoint() {
        Ok(()) => Ok(store),
        Err(why) => Err(Refused {
            why,
            disk: store.into_disk(),
        }),
    }
}

/// A database whose files are read becomes a store.
pub(crate) fn start<D: Disk>(alloc: Global, disk: D, loaded: Loaded) -> Result<Store<D>, Refused<D>>
    requires read { D.tells_content → AreRead (D.told disk) loaded.objects loaded.log }

    ensures opened { D.tells_content → (limit : ℕ) (t : Tables) → IsRead (D.told disk) loaded.objects limit t → IfOk result (λ store. IsStoreOf store (settled t) t) }
    ensures stops { D.tells_content → (limit : ℕ) (t : Tables) → IsRead (D.told disk) loaded.objects limit t → IfOk result (λ store. EachStop (D.told disk) (told_of store) (LeavesEither limit t t)) }
    ensures stops_refused { D.tells_content → (limit : ℕ) (t : Tables) → IsRead (D.told disk) loaded.objects limit t → IfErr result (λ refused. EachStop (D.told disk) (D.told refused.disk) (LeavesEither limit t t)) }
    ensures limit { D.tells_content → (limit : ℕ) (t : Tables) → IsRead (D.told disk) loaded.objects limit t → IfOk result (λ store. limit_in store ≡ limit) }

    ensures restored { D.tells_content → (s now : State) (t : Tables) → HoldsSafe (D.told disk) loaded.objects s → AppliesBodies (later_in (D.told disk) loaded.objects) s now → undone now ≡ Some t → IfOk result (λ store. HoldsIn store (settled t)) }
    ensures brought { D.tells_content → (s : State) → HoldsSafe (D.told disk) loaded.objects s → IfOk result (λ store. (now : State) × AppliesBodies (later_in (D.told disk) loaded.objects) s now) }
    ensures saved { D.tells_content → IfOk result (λ store. CountsAll store) }
    ensures none { D.tells_content → IfOk result (λ store. bodies ((told_of store).content 1) ≡ []) }
    ensures flushed { IfOk result (λ store. noted_in store ≡ []) }

    ensures damaged { D.tells_content → (s : State) (head : Head) → HoldsSafe (D.told disk) loaded.objects s → head.frames ≡ (header_of (pages_of loaded.objects)).frames → IfErr result (λ refused. IfDamaged refused.why (FailsInRecords ((D.told disk).content 2) head s)) }
    ensures left { D.tells_content → (s : State) → HoldsSafe (D.told disk) loaded.objects s → IfErr result (λ refused. IfDamaged refused.why (λ file at. LeavesPages (D.told disk) (D.told refused.disk))) }
    ensures limited { IfErr result (λ refused. IfPageLimit refused.why IsFull) }
    ensures cause { IfErr result (λ refused. refused.why ≡ PageRefusal.DiskFault → Rose (D.told disk).faults (D.told refused.disk).faults) }
{
    let Loaded { objects, log } = loaded;
    let mut log = log;
    if log.buffered() > 0 {
        return Err(Refused {
            why: PageRefusal::Memory,
            disk,
        });
    }
    let header = *objects.pages().header();
    let from = GatePlace {
        gate: header.frames,
        at: header.place,
    };
    let mut on = OnPages::new(disk, objects);
    match bring_up(alloc, &mut on, &mut log, from) {
        Ok(due) => {
            let (disk, objects) = on.into_parts();
            finish(disk, objects, log, due)
        }
        Err(why) => {
            let (disk, _objects) = on.into_parts();
            Err(Refused { why, disk })
        }
    }
}

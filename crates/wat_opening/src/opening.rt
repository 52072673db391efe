ghost use Rattle.std.specs.Prelude.{◌≡◌, [], ℕ, IfOk, IfErr, IsErrAnd};
ghost use Rattle.wat_disk.specs.Disk.{EachStop};
ghost use Rattle.wat_faults.specs.Faults.{Rose};
ghost use Rattle.wat_gate.specs.Bodies.{bodies};
ghost use Rattle.wat_images.specs.Refusal.{IfDamaged as IfDamagedPages, IfPageLimit as IfLimitedPages};
ghost use Rattle.wat_schema.specs.Tables.{Tables};
ghost use Rattle.wat_files.specs.Formed.{FailsAt, IsFormed, Opens};
ghost use Rattle.wat_keeping.specs.Durable.{IsDatabase, LeavesEither};
ghost use Rattle.wat_repeating.specs.OnPages.{IsFull};
ghost use Rattle.wat_store.specs.Store.{told_of, limit_in, noted_in, IsStoreOf, HoldsIn, CountsAll};
ghost use Rattle.wat_opening.specs.Opening.{AreEmpty, IsOnDisk, settled, LeavesPages};
ghost use Rattle.wat_opening.specs.Refusal.{IfDamaged, IfPageLimit, IsOnEmpty};

use crate::empty::are_empty;
use crate::refusal::{OpenRefusal, OpenWhy, Refused, why_of};
use crate::starting::start;
use std::alloc::Global;
use wat_disk::Disk;
use wat_loading::load;
use wat_pages::PageRefusal;
use wat_store::Store;

/// Opens the files, which aren't all empty.
fn open_files<D: Disk>(alloc: Global, disk: D) -> Result<Store<D>, Refused<D>>
    ensures opened { D.tells_content → (limit : ℕ) (t : Tables) → IsOnDisk (D.told disk) → IsDatabase limit t (D.told disk).content → IfOk result (λ store. IsStoreOf store (settled t) t) }
    ensures limit { D.tells_content → (limit : ℕ) (t : Tables) → IsOnDisk (D.told disk) → IsDatabase limit t (D.told disk).content → IfOk result (λ store. limit_in store ≡ limit) }
    ensures stops { D.tells_content → (limit : ℕ) (t : Tables) → IsOnDisk (D.told disk) → IsDatabase limit t (D.told disk).content → IfOk result (λ store. EachStop (D.told disk) (told_of store) (LeavesEither limit t t)) }
    ensures stops_refused { D.tells_content → (limit : ℕ) (t : Tables) → IsOnDisk (D.told disk) → IsDatabase limit t (D.told disk).content → IfErr result (λ refused. EachStop (D.told disk) (D.told refused.disk) (LeavesEither limit t t)) }
    ensures formed { D.tells_content → (t : Tables) → IsOnDisk (D.told disk) → Opens (D.told disk).content t → IfOk result (λ store. HoldsIn store (settled t)) }
    ensures only { D.tells_content → IsOnDisk (D.told disk) → IfOk result (λ store. IsFormed (D.told disk).content) }
    ensures saved { D.tells_content → IfOk result (λ store. CountsAll store) }
    ensures none { D.tells_content → IfOk result (λ store. bodies ((told_of store).content 1) ≡ []) }
    ensures flushed { IfOk result (λ store. noted_in store ≡ []) }
    ensures damaged { D.tells_content → IsOnDisk (D.told disk) → IfErr result (λ refused. IfDamagedPages refused.why (FailsAt (D.told disk).content)) }
    ensures left { D.tells_content → IsOnDisk (D.told disk) → IfErr result (λ refused. IfDamagedPages refused.why (λ file at. LeavesPages (D.told disk) (D.told refused.disk))) }
    ensures limited { IfErr result (λ refused. IfLimitedPages refused.why IsFull) }
    ensures cause { IfErr result (λ refused. refused.why ≡ PageRefusal.DiskFault → Rose (D.told disk).faults (D.told refused.disk).faults) }
{
    let mut disk = disk;
    match load(alloc, &mut disk) {
        Ok(loaded) => start(alloc, disk, loaded),
        Err(why) => Err(Refused { why, disk }),
    }
}

/// Opens a database: its files are read, with the images of a checkpoint that was cut off; the records past the last checkpoint
/// are made again; and the changes that stand are rolled back, those of the least connection first, with a record each. Where
/// there was an image, a record or a change, a checkpoint is made.
///
/// `NoDatabase` comes exactly where all three files are empty. `Damaged` tells the file and the place at which a walk over the
/// files fails first.
pub fn open<D: Disk>(alloc: Global, disk: D) -> Result<Store<D>, OpenRefusal<D>>
    // The tables are those to which the files restart, no connection has changes, and the page limit is that of the files.
    ensures opened { D.tells_content → (limit : ℕ) (t : Tables) → IsOnDisk (D.told disk) → IsDatabase limit t (D.told disk).content → IfOk result (λ store. IsStoreOf store (settled t) t) }
    ensures limit { D.tells_content → (limit : ℕ) (t : Tables) → IsOnDisk (D.told disk) → IsDatabase limit t (D.told disk).content → IfOk result (λ store. limit_in store ≡ limit) }

    // A stop at any moment leaves a database of these tables.
    ensures stops { D.tells_content → (limit : ℕ) (t : Tables) → IsOnDisk (D.told disk) → IsDatabase limit t (D.told disk).content → IfOk result (λ store. EachStop (D.told disk) (told_of store) (LeavesEither limit t t)) }
    ensures stops_refused { D.tells_content → (limit : ℕ) (t : Tables) → IsOnDisk (D.told disk) → IsDatabase limit t (D.told disk).content → IfErr result (λ refusal. EachStop (D.told disk) (D.told refusal.disk) (LeavesEither limit t t)) }

    // Also where the pages of the files don't agree with their log, the store has the tables that they open to.
    ensures formed { D.tells_content → (t : Tables) → IsOnDisk (D.told disk) → Opens (D.told disk).content t → IfOk result (λ store. HoldsIn store (settled t)) }

    // It is Ok only on files that are those of a database.
    ensures only { D.tells_content → IsOnDisk (D.told disk) → IfOk result (λ store. IsFormed (D.told disk).content) }

    // The header counts all frames of the log then, the before file has no images, and nothing is noted.
    ensures saved { D.tells_content → IfOk result (λ store. CountsAll store) }
    ensures none { D.tells_content → IfOk result (λ store. bodies ((told_of store).content 1) ≡ []) }
    ensures flushed { IfOk result (λ store. noted_in store ≡ []) }

    // On empty files the answer is `NoDatabase`, if no length is refused; on others it never is.
    ensures empty { D.tells_content → AreEmpty (D.told disk).content → IsErrAnd result (λ refusal. IsOnEmpty refusal.why) }
    ensures no_database { D.tells_content → IfErr result (λ refusal. refusal.why ≡ OpenWhy.NoDatabase → AreEmpty (D.told disk).content) }

    // Files that aren't those of a database are left: the log as it is, and the pages as a stop leaves them.
    ensures damaged { D.tells_content → IsOnDisk (D.told disk) → IfErr result (λ refusal. IfDamaged refusal.why (FailsAt (D.told disk).content)) }
    ensures left { D.tells_content → IsOnDisk (D.told disk) → IfErr result (λ refusal. IfDamaged refusal.why (λ file at. LeavesPages (D.told disk) (D.told refusal.disk))) }

    ensures limited { IfErr result (λ refusal. IfPageLimit refusal.why IsFull) }
    ensures cause { IfErr result (λ refusal. refusal.why ≡ OpenWhy.DiskFault → Rose (D.told disk).faults (D.told refusal.disk).faults) }
{
    let mut disk = disk;
    match are_empty(&mut disk) {
        Ok(false) => {}
        Ok(true) => {
            return Err(OpenRefusal {
                why: OpenWhy::NoDatabase,
                disk,
            });
        }
        Err(refusal) => {
            return Err(OpenRefusal {
                why: why_of(refusal),
                disk,
            });
        }
    }
    match open_files(alloc, disk) {
        Ok(store) => Ok(store),
        Err(Refused { why, disk }) => Err(OpenRefusal {
            why: why_of(why),
            disk,
        }),
    }
}

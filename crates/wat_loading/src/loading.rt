// The steps of opening, one behind the other.
ghost use Rattle.std.specs.Prelude.{◌≡◌, [], OnOk, IfOk, IfErr};
ghost use Rattle.wat_disk.specs.Disk.{EachStop};
ghost use Rattle.wat_faults.specs.Faults.{HasCause};
ghost use Rattle.wat_restore.specs.Restored.{Checkpoint, OnlyPages};
ghost use Rattle.wat_restore.specs.Safe.{IsSafe, Covers};
ghost use Rattle.wat_images.specs.Refusal.{IfDamaged, IfPageLimit};
ghost use Rattle.wat_pages.specs.Pages.{IsPagesOf, book_of};
ghost use Rattle.wat_log.specs.Log.{IsOpenLog, log_file, noted_bytes};
ghost use Rattle.wat_files.specs.Formed.{FailsAt, FailsInChains};
ghost use Rattle.wat_free_list.specs.Whole.{whole_pages};
ghost use Rattle.wat_roots.specs.Roots.{head_now};
ghost use Rattle.wat_roots.specs.Went.{Went, Stays};
ghost use Rattle.wat_loading.specs.Loaded.{HoldsRest, IsLoaded};

use crate::log::open_log;
use crate::payloads::read_parts;
use crate::state::take_state;
use std::alloc::Global;
use wat_disk::Disk;
use wat_heap::Heap;
use wat_log::Log;
use wat_objects::Objects;
use wat_pages::{PageRefusal, Pages};
use wat_roots::read_roots;
use wat_schema::Schema;
use wat_undo::Undo;

/// A database as its files have it, up to the log's records past the checkpoint.
#[derive(Drop)]
pub struct Loaded {
    pub objects: Objects,
    pub log: Log,
}

/// What stands beside the pages.
#[derive(Drop)]
struct Rest {
    heap: Heap,
    undo: Undo,
    schema: Schema,
    log: Log,
}

/// Reads what stands behind the header.
fn load_parts<D: Disk>(alloc: Global, pages: &mut Pages, disk: &mut D) -> Result<Rest, PageRefusal>
    requires known { D.tells_content → IsPagesOf (D.told disk.old) pages.old }

    ensures loaded { D.tells_content → IfOk result (HoldsRest (book_of (D.told disk.old) pages.old) (head_now pages.old) ((D.told disk.old).content log_file)) }
    ensures opened { D.tells_content → IfOk result (λ rest. IsOpenLog (D.told disk.new) rest.log) }
    ensures noted { IfOk result (λ rest. noted_bytes rest.log ≡ []) }
    ensures damaged { D.tells_content → IfErr result (λ refusal. IfDamaged refusal (FailsInChains (whole_pages (book_of (D.told disk.old) pages.old)) ((D.told disk.old).content log_file) (head_now pages.old))) }
    ensures limited { IfErr result (λ refusal. IfPageLimit refusal (λ count limit. ⊥)) }
    ensures went { D.tells_content → Went (D.told disk.old) (D.told disk.new) pages.old pages.new }
    ensures stays { D.tells_content → OnOk result (Stays (D.told disk.old) (D.told disk.new) pages.old pages.new) }
    ensures cause { HasCause (D.told disk.old).faults (D.told disk.new).faults (result ≡ Err PageRefusal.DiskFault) }
{
    let roots = match read_roots(alloc, pages, disk) {
        Ok(roots) => roots,
        Err(refusal) => return Err(refusal),
    };
    let header = *pages.header();
    let parts = match read_parts(alloc, &header, &roots) {
        Ok(parts) => parts,
        Err(refusal) => return Err(refusal),
    };
    let heap = match take_state(alloc, pages, disk, &roots, &parts) {
        Ok(heap) => heap,
        Err(refusal) => return Err(refusal),
    };
    let log = match open_log(alloc, disk, &header) {
        Ok(log) => log,
        Err(refusal) => return Err(refusal),
    };
    Ok(Rest {
        heap,
        undo: parts.undo,
        schema: parts.schema,
        log,
    })
}

/// Reads the three files of a database into memory, up to the log's frames. It writes nothing.
///
/// `Damaged` tells the file and the place at which they fail to be formed, as a walk over them finds it: the checkpoint log
/// and the header, the two chains and the free list, what the chains tell, the rows, undoing, and the log.
pub fn load<D: Disk>(alloc: Global, disk: &mut D) -> Result<Loaded, PageRefusal>
    ensures loaded { D.tells_content → IfOk result (IsLoaded (D.told disk.old).content (D.told disk.new)) }
    ensures damaged { D.tells_content → IfErr result (λ refusal. IfDamaged refusal (FailsAt (D.told disk.old).content)) }
    ensures limited { IfErr result (λ refusal. IfPageLimit refusal (λ count limit. ⊥)) }
    ensures others { D.tells_content → OnlyPages (D.told disk.old).content (D.told disk.new).content }
    ensures stops { D.tells_content → (saved : Checkpoint) → IsSafe saved (D.told disk.old) → EachStop (D.told disk.old) (D.told disk.new) (Covers saved) }
    ensures safe { D.tells_content → (saved : Checkpoint) → IsSafe saved (D.told disk.old) → OnOk result (IsSafe saved (D.told disk.new)) }
    ensures cause { HasCause (D.told disk.old).faults (D.told disk.new).faults (result ≡ Err PageRefusal.DiskFault) }
{
    let mut pages = match Pages::open(alloc, disk) {
        Ok(pages) => pages,
        Err(refusal) => return Err(refusal),
    };
    let rest = match load_parts(alloc, &mut pages, disk) {
        Ok(rest) => rest,
        Err(refusal) => return Err(refusal),
    };
    let catalog = pages.header().catalog;
    Ok(Loaded {
        objects: Objects::of(alloc, pages, rest.heap, rest.undo, rest.schema, catalog),
        log: rest.log,
    })
}

// The two chains and the free list are read, one after another.
ghost use Rattle.std.specs.Prelude.{◌≡◌, ◌≢◌, ◌*◌, ◌<◌, ◌++◌, [], ℕ, nat_eq, OnOk, IfOk, IfErr};
ghost use Rattle.std.specs.List.{IsDistinct};
ghost use Rattle.wat_faults.specs.Faults.{HasCause};
ghost use Rattle.wat_book.specs.Chains.{IsReadChain, BreaksAt};
ghost use Rattle.wat_images.specs.Refusal.{IfDamaged, IfPageLimit};
ghost use Rattle.wat_pages.specs.Pages.{IsPagesOf, book_of};
ghost use Rattle.wat_files.specs.Chains.{CatalogStops, ChainsStop};
ghost use Rattle.wat_files.specs.Formed.{IsAtPage};
ghost use Rattle.wat_free_list.specs.Whole.{whole_pages};
ghost use Rattle.wat_roots.specs.Roots.{HasRoots, head_now};
ghost use Rattle.wat_roots.specs.Went.{Went, Stays};

use std::alloc::Global;
use wat_disk::{Disk, FileId};
use wat_free_list::read_free_list;
use wat_list::NoMemory;
use wat_pages::{PageRefusal, Pages};
use wat_payload::{Chain, read_chain};

/// What the header leads to.
#[derive(Drop)]
pub struct Roots {
    /// The payload of the catalog's chain.
    pub schema: Vec<u8>,
    /// The payload of the chain of the changes to roll back.
    pub changes: Vec<u8>,
    /// The pages of both chains and the free ones, each once.
    pub listed: Vec<u32>,
}

fn no_catalog() -> PageRefusal
    ensures place { IfDamaged result (λ file at. (file ≡ 0) × (at ≡ 0)) }
    ensures limited { IfPageLimit result (λ count limit. ⊥) }
    ensures fault { result ≢ PageRefusal.DiskFault }
{
    PageRefusal::Damaged {
        file: FileId(0),
        at: 0,
    }
}

/// Reads the chain of the catalog. `Damaged` tells page 0 where the header names none.
fn read_catalog<D: Disk>(
    alloc: Global,
    pages: &mut Pages,
    disk: &mut D,
) -> Result<Chain, PageRefusal>
    requires known { D.tells_content → IsPagesOf (D.told disk.old) pages.old }

    ensures some { OnOk result (0 < (head_now pages.old).catalog) }
    ensures chain { D.tells_content → IfOk result (λ chain. IsReadChain (whole_pages (book_of (D.told disk.old) pages.old)) [] (head_now pages.old).catalog chain.pages.items chain.payload.items) }
    ensures once { IfOk result (λ chain. IsDistinct nat_eq chain.pages.items) }
    ensures damaged { D.tells_content → IfErr result (λ refusal. IfDamaged refusal (λ file at. IsAtPage file at (CatalogStops (whole_pages (book_of (D.told disk.old) pages.old)) (head_now pages.old)))) }
    ensures limited { IfErr result (λ refusal. IfPageLimit refusal (λ count limit. ⊥)) }
    ensures went { D.tells_content → Went (D.told disk.old) (D.told disk.new) pages.old pages.new }
    ensures stays { D.tells_content → OnOk result (Stays (D.told disk.old) (D.told disk.new) pages.old pages.new) }
    ensures cause { HasCause (D.told disk.old).faults (D.told disk.new).faults (result ≡ Err PageRefusal.DiskFault) }
{
    let first = pages.header().catalog;
    if first == 0 {
        return Err(no_catalog());
    }
    match read_chain(alloc, pages, disk, first, &[]) {
        Ok(chain) => Ok(chain),
        Err(refusal) => Err(refusal),
    }
}

/// Reads the chain of the changes to roll back, behind the catalog's, whose pages it must not come to.
fn read_rollback<D: Disk>(
    alloc: Global,
    pages: &mut Pages,
    disk: &mut D,
    catalog: &[u32],
) -> Result<Chain, PageRefusal>
    requires known { D.tells_content → IsPagesOf (D.told disk.old) pages.old }
    requires once { IsDistinct nat_eq catalog.now }

    ensures chain { D.tells_content → IfOk result (λ chain. IsReadChain (whole_pages (book_of (D.told disk.old) pages.old)) catalog.now (head_now pages.old).rollback chain.pages.items chain.payload.items) }
    ensures once { IfOk result (λ chain. IsDistinct nat_eq (catalog.now ++ chain.pages.items)) }
    ensures damaged { D.tells_content → IfErr result (λ refusal. IfDamaged refusal (λ file at. IsAtPage file at (BreaksAt (whole_pages (book_of (D.told disk.old) pages.old)) catalog.now (head_now pages.old).rollback))) }
    ensures limited { IfErr result (λ refusal. IfPageLimit refusal (λ count limit. ⊥)) }
    ensures went { D.tells_content → Went (D.told disk.old) (D.told disk.new) pages.old pages.new }
    ensures stays { D.tells_content → OnOk result (Stays (D.told disk.old) (D.told disk.new) pages.old pages.new) }
    ensures cause { HasCause (D.told disk.old).faults (D.told disk.new).faults (result ≡ Err PageRefusal.DiskFault) }
{
    let first = pages.header().rollback;
    match read_chain(alloc, pages, disk, first, catalog) {
        Ok(chain) => Ok(chain),
        Err(refusal) => Err(refusal),
    }
}

fn joined(first: Vec<u32>, second: &[u32]) -> Result<Vec<u32>, NoMemory>
    ensures { IfOk result (λ list. list.items ≡ first.items ++ second.now) }
{
    let mut list = first;
    list.extend_from_slice(second)?;
    Ok(list)
}

/// Reads what the header leads to: the catalog's chain, that of the changes to roll back, and the list of the free pages.
///
/// `Damaged` tells the first page that fails, in bytes from the start of the main file: page 0 where the header names no
/// catalog, and else the first page that isn't what it should be, or was met before.
pub fn read_roots<D: Disk>(
    alloc: Global,
    pages: &mut Pages,
    disk: &mut D,
) -> Result<Roots, PageRefusal>
    requires known { D.tells_content → IsPagesOf (D.told disk.old) pages.old }

    ensures read { D.tells_content → IfOk result (HasRoots (whole_pages (book_of (D.told disk.old) pages.old)) (head_now pages.old)) }
    ensures damaged { D.tells_content → IfErr result (λ refusal. IfDamaged refusal (λ file at. IsAtPage file at (ChainsStop (whole_pages (book_of (D.told disk.old) pages.old)) (head_now pages.old)))) }
    ensures limited { IfErr result (λ refusal. IfPageLimit refusal (λ count limit. ⊥)) }

    // All pages are as before, and a stop leaves the last checkpoint.
    ensures went { D.tells_content → Went (D.told disk.old) (D.told disk.new) pages.old pages.new }
    ensures stays { D.tells_content → OnOk result (Stays (D.told disk.old) (D.told disk.new) pages.old pages.new) }

    ensures cause { HasCause (D.told disk.old).faults (D.told disk.new).faults (result ≡ Err PageRefusal.DiskFault) }
{
    let catalog = match read_catalog(alloc, pages, disk) {
        Ok(chain) => chain,
        Err(refusal) => return Err(refusal),
    };
    let rollback = match read_rollback(alloc, pages, disk, catalog.pages.as_slice()) {
        Ok(chain) => chain,
        Err(refusal) => return Err(refusal),
    };
    let chains = match joined(catalog.pages, rollback.pages.as_slice()) {
        Ok(list) => list,
        Err(_) => return Err(PageRefusal::Memory),
    };
    let first = pages.first_free();
    let free = match read_free_list(alloc, pages, disk, first, chains.as_slice()) {
        Ok(list) => list,
        Err(refusal) => return Err(refusal),
    };
    match joined(chains, free.as_slice()) {
        Ok(listed) => Ok(Roots {
            schema: catalog.payload,
            changes: rollback.payload,
            listed,
        }),
        Err(_) => Err(PageRefusal::Memory),
    }
}

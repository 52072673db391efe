// What the payloads of the two chains tell.
ghost use Rattle.std.specs.Prelude.{◌≡◌, ◌≢◌, ℕ, List, IfOk, IfErr};
ghost use Rattle.wat_book.specs.Book.{Section};
ghost use Rattle.wat_images.specs.Refusal.{IfDamaged, IfPageLimit};
ghost use Rattle.wat_pages.specs.Header.{head_of};
ghost use Rattle.wat_schema.specs.Catalog.{Catalog};
ghost use Rattle.wat_replay.specs.State.{Lists};
ghost use Rattle.wat_undo.specs.Kept.{lists_of};
ghost use Rattle.wat_spelled.specs.Changes.{TellsLists};
ghost use Rattle.wat_files.specs.Formed.{IsAtPage, FailsInCatalog};
ghost use Rattle.wat_roots.specs.Roots.{HasRoots};
ghost use Rattle.wat_catalog_chain.specs.Definitions.{SpellsThis, SpellsNoSchema, SpellsBadSchema};
ghost use Rattle.wat_loading.specs.Parts.{IfSpelled, TellParts};

use std::alloc::Global;
use wat_catalog_chain::{SchemaRefusal, schema_from};
use wat_disk::FileId;
use wat_pages::{Header, PageRefusal};
use wat_roots::Roots;
use wat_schema::Schema;
use wat_undo::Undo;

/// The schema and the changes to roll back, as the payloads of their chains tell them.
#[derive(Drop)]
pub(crate) struct Parts {
    pub(crate) schema: Schema,
    pub(crate) undo: Undo,
}

/// The first page of a chain, whose payload isn't as it should be.
pub(crate) fn damaged(page: u32) -> PageRefusal
    ensures place { IfDamaged result (λ file at. IsAtPage file at (λ here. here ≡ page)) }
    ensures limited { IfPageLimit result (λ count limit. ⊥) }
    ensures fault { result ≢ PageRefusal.DiskFault }
{
    PageRefusal::Damaged {
        file: FileId(0),
        at: 4096 * u64::from(page),
    }
}

/// The schema, or `None` where it breaks a rule.
fn read_schema(
    alloc: Global,
    payload: &[u8],
    header: &Header,
) -> Result<Option<Schema>, PageRefusal>
    ensures spelled { IfOk result (IfSpelled payload.now header.now.next_table) }
    ensures damaged { IfErr result (λ refusal. IfDamaged refusal (λ file at. IsAtPage file at (λ here. (here ≡ header.now.catalog) × SpellsNoSchema payload.now header.now.next_table))) }
    ensures limited { IfErr result (λ refusal. IfPageLimit refusal (λ count limit. ⊥)) }
    ensures fault { result ≢ Err PageRefusal.DiskFault }
{
    match schema_from(alloc, payload, header.next_table) {
        Ok(schema) => Ok(Some(schema)),
        Err(SchemaRefusal::BreaksRule) => Ok(None),
        Err(SchemaRefusal::Unspelled) => Err(damaged(header.catalog)),
        Err(SchemaRefusal::Memory) => Err(PageRefusal::Memory),
    }
}

/// The changes to roll back; none where there is no chain.
fn read_changes(alloc: Global, payload: &[u8], first: u32) -> Result<Undo, PageRefusal>
    ensures tells { IfOk result (λ undo. TellsLists first payload.now (lists_of undo)) }
    ensures damaged { IfErr result (λ refusal. IfDamaged refusal (λ file at. IsAtPage file at (λ here. (here ≡ first) × ((lists : Lists) → TellsLists first payload.now lists → ⊥)))) }
    ensures limited { IfErr result (λ refusal. IfPageLimit refusal (λ count limit. ⊥)) }
    ensures fault { result ≢ Err PageRefusal.DiskFault }
{
    if first == 0 {
        return Ok(Undo::new(alloc));
    }
    match Undo::from_payload(alloc, payload) {
        Ok(Some(undo)) => Ok(undo),
        Ok(None) => Err(damaged(first)),
        Err(_) => Err(PageRefusal::Memory),
    }
}

/// The schema and the changes to roll back. `Damaged` tells the first page of the chain that fails: the catalog's, where its
/// payload spells no schema; that of the changes, where its payload tells none; the catalog's, where the schema breaks a rule.
pub(crate) fn read_parts(
    alloc: Global,
    header: &Header,
    roots: &Roots,
) -> Result<Parts, PageRefusal>
    ensures read { (pages : Section) (limit count free : ℕ) → (has : HasRoots pages (head_of header.now limit count free) roots.now)
        → IfOk result (λ parts. TellParts (head_of header.now limit count free) has.chains parts.schema (lists_of parts.undo)) }
    ensures damaged { (pages : Section) (log : List ℕ) (limit count free : ℕ) → (has : HasRoots pages (head_of header.now limit count free) roots.now)
        → IfErr result (λ refusal. IfDamaged refusal (FailsInCatalog pages log (head_of header.now limit count free) has.chains)) }
    ensures limited { IfErr result (λ refusal. IfPageLimit refusal (λ count limit. ⊥)) }
    ensures fault { result ≢ Err PageRefusal.DiskFault }
{
    let spelled = match read_schema(alloc, roots.schema.as_slice(), header) {
        Ok(spelled) => spelled,
        Err(refusal) => return Err(refusal),
    };
    let undo = match read_changes(alloc, roots.changes.as_slice(), header.rollback) {
        Ok(undo) => undo,
        Err(refusal) => return Err(refusal),
    };
    match spelled {
        Some(schema) => {
            schema.catalog_law();
            Ok(Parts { schema, undo })
        }
        None => Err(damaged(header.catalog)),
    }
}

// The bytes of a payload to a schema.
//
// Each function whose name begins with `read` reads what the bytes begin with, and gives back the rest behind it. It answers
// `None` exactly where they begin with no such thing.
ghost use Rattle.std.specs.Prelude.{◌≡◌, ◌&&◌, nat_le, map, Err, IfOk, IfErr, IfSome, IfNone, MatchOption};
ghost use Rattle.std.specs.List.{flat_map};
ghost use Rattle.wat_log_record.specs.Encoding.{index_bytes};
ghost use Rattle.wat_log_record.specs.Reading.{Begins, BeginsNone};
ghost use Rattle.wat_schema.specs.Catalog.{Catalog, ascend};
ghost use Rattle.wat_schema.specs.Stored.{IsCatalog};
ghost use Rattle.wat_catalog_chain.specs.Definitions.{listing_bytes, AddsListing, AreIndexes, AreListings, BeginsListings, IsSpelledListing, SpellsBadSchema, SpellsDefinitions, SpellsNoSchema, SpellsSchema, SpellsThis};

use crate::SchemaRefusal;
use std::alloc::Global;
use wat_list::{Items, NoMemory};
use wat_record::{read_index, read_number, read_table};
use wat_schema::Schema;
use wat_value::{IndexDefs, TableDef, TableDefs};

/// So many indexes of the table, numbered from 1.
fn read_indexes<'a>(
    alloc: Global,
    def: &TableDef,
    count: u8,
    bytes: &'a [u8],
) -> Result<Option<(IndexDefs, &'a [u8])>, NoMemory>
    ensures { IfOk result (λ o. MatchOption o (BeginsNone (flat_map index_bytes) (AreIndexes def.now count) bytes.now) (λ x. Begins (flat_map index_bytes) (AreIndexes def.now count) bytes.now x.0 x.1.now)) }
{
    let mut indexes = Items::new(alloc);
    let mut rest = bytes;
    for i in 0..count {
        let Some((index, behind)) = read_index(alloc, rest)? else {
            return Ok(None);
        };
        if index.number != i + 1 || index.table != def.number {
            return Ok(None);
        }
        indexes.push(index)?;
        rest = behind;
    }
    Ok(Some((indexes, rest)))
}

/// The definitions that were read.
#[derive(Drop)]
struct Definitions {
    tables: TableDefs,
    indexes: IndexDefs,
}

/// A table with its indexes, whose definitions are added to those that were found before.
fn read_listing<'a>(
    alloc: Global,
    bytes: &'a [u8],
    found: &mut Definitions,
) -> Result<Option<&'a [u8]>, NoMemory>
    ensures { IfOk result (λ o. MatchOption o (BeginsNone listing_bytes IsSpelledListing bytes.now) (λ rest. AddsListing bytes.now rest.now found.old.tables found.new.tables found.old.indexes found.new.indexes)) }
{
    let Some((def, rest)) = read_table(alloc, bytes)? else {
        return Ok(None);
    };
    let Some((count, rest)) = rest.split_first() else {
        return Ok(None);
    };
    match read_indexes(alloc, &def, *count, rest)? {
        Some((indexes, rest)) => {
            found.tables.push(def)?;
            found.indexes.append(indexes)?;
            Ok(Some(rest))
        }
        None => Ok(None),
    }
}

/// So many tables, each with its indexes.
fn read_listings(
    alloc: Global,
    count: u32,
    bytes: &[u8],
) -> Result<Option<(Definitions, &[u8])>, NoMemory>
    ensures { IfOk result (λ o. MatchOption o (BeginsNone (flat_map listing_bytes) (AreListings count) bytes.now) (λ x. BeginsListings count bytes.now x.0.tables x.0.indexes x.1.now)) }
{
    let mut found = Definitions {
        tables: Items::new(alloc),
        indexes: Items::new(alloc),
    };
    let mut rest = bytes;
    for _i in 0..count {
        match read_listing(alloc, rest, &mut found)? {
            Some(behind) => {
                rest = behind;
            }
            None => return Ok(None),
        }
    }
    Ok(Some((found, rest)))
}

/// Whether the numbers of the tables ascend, from 1 on and below the next one.
fn are_in_order(defs: &[TableDef], next: u32) -> bool
    ensures { result ≡ (nat_le 1 next && ascend 0 (map (λ def. def.number) defs.now) next) }
{
    let mut low = 0;
    for def in defs {
        if def.number <= low || next <= def.number {
            return false;
        }
        low = def.number;
    }
    next >= 1
}

/// The definitions of the schema that the payload spells, with this next table number.
fn read_definitions(
    alloc: Global,
    payload: &[u8],
    next: u32,
) -> Result<Option<Definitions>, NoMemory>
    ensures spelled { IfOk result (λ o. IfSome o (λ found. SpellsDefinitions payload.now next found.tables found.indexes)) }
    ensures none { IfOk result (λ o. IfNone o (SpellsNoSchema payload.now next)) }
{
    let Some((count, rest)) = read_number(payload) else {
        return Ok(None);
    };
    match read_listings(alloc, count, rest)? {
        Some((found, rest)) => {
            if !rest.is_empty() {
                return Ok(None);
            }
            if !are_in_order(found.tables.as_slice(), next) {
                return Ok(None);
            }
            Ok(Some(found))
        }
        None => Ok(None),
    }
}

/// The schema that the payload spells, with this next table number.
pub fn schema_from(alloc: Global, payload: &[u8], next: u32) -> Result<Schema, SchemaRefusal>
    ensures schema { IfOk result (λ schema. SpellsThis payload.now next schema) }
    ensures unspelled { result ≡ Err SchemaRefusal.Unspelled → SpellsNoSchema payload.now next }
    ensures rule { result ≡ Err SchemaRefusal.BreaksRule → SpellsBadSchema payload.now next }

    // What was written is read back.
    ensures written { (c : Catalog) → c.next ≡ next → IsCatalog c → SpellsSchema payload.now c → IfOk result (λ schema. schema ≡ c) }
    ensures refused { (c : Catalog) → c.next ≡ next → IsCatalog c → SpellsSchema payload.now c → IfErr result (λ refusal. refusal ≡ SchemaRefusal.Memory) }
{
    let Some(found) = read_definitions(alloc, payload, next)? else {
        return Err(SchemaRefusal::Unspelled);
    };
    match Schema::of(alloc, &found.tables, &found.indexes, next)? {
        Some(schema) => Ok(schema),
        None => Err(SchemaRefusal::BreaksRule),
    }
}

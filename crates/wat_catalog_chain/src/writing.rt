// The schema to the bytes of a payload.
ghost use Rattle.std.specs.Prelude.{◌≡◌, ◌++◌, IfOk, OnOk};
ghost use Rattle.std.specs.List.{flat_map, AllByRecursion};
ghost use Rattle.wat_log_record.specs.Encoding.{index_bytes, IsEncodableIndex, IsWritableIndex};
ghost use Rattle.wat_catalog_chain.specs.Definitions.{leading, listing, listing_bytes, IsEncodableListing, IsWritableListing, SpellsSchema};

use std::alloc::Global;
use wat_list::NoMemory;
use wat_record::{push_index, push_number, push_table};
use wat_schema::Schema;
use wat_value::{IndexDef, TableDef};

/// How many indexes at the front are of the table.
fn leading(table: u32, indexes: &[IndexDef]) -> usize
    ensures { result ≡ leading table indexes.now }
{
    let mut count = 0;
    for index in indexes {
        if index.table != table {
            return count;
        }
        count += 1;
    }
    count
}

fn push_indexes(indexes: &[IndexDef], out: &mut Vec<u8>) -> Result<(), NoMemory>
    requires { AllByRecursion IsWritableIndex indexes.now }
    ensures ok { OnOk result (out.new.items ≡ out.old.items ++ flat_map index_bytes indexes.now) }
    ensures encodable { OnOk result (AllByRecursion IsEncodableIndex indexes.now) }
{
    for index in indexes {
        push_index(index, out)?;
    }
    Ok(())
}

/// Adds the bytes of a table and its indexes.
fn push_listing(def: &TableDef, indexes: &[IndexDef], out: &mut Vec<u8>) -> Result<(), NoMemory>
    requires { IsWritableListing def.now indexes.now }
    ensures ok { OnOk result (out.new.items ≡ out.old.items ++ listing_bytes (listing (def.now, indexes.now))) }
    ensures encodable { OnOk result (IsEncodableListing (listing (def.now, indexes.now))) }
{
    push_table(def, out)?;
    out.push(indexes.len() as u8)?;
    push_indexes(indexes, out)
}

/// The payload of the schema: how many tables there are, and each with its indexes.
pub fn schema_payload(alloc: Global, schema: &Schema) -> Result<Vec<u8>, NoMemory>
    ensures { IfOk result (λ payload. SpellsSchema payload.items schema.now) }
{
    schema.catalog_law();
    let defs = schema.defs()?;
    let indexes = schema.indexes()?;
    let mut out = Vec::new(alloc);
    push_number(defs.len() as u32, &mut out)?;
    let mut rest = indexes.as_slice();
    for def in defs.as_slice() {
        let (own, behind) = rest.split_at(leading(def.number, rest));
        push_listing(def, own, &mut out)?;
        rest = behind;
    }
    Ok(out)
}

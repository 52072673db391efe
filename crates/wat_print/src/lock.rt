ghost use Rattle.std.specs.Prelude.{◌≡◌, ◌++◌, OnOk};
ghost use Rattle.std.specs.Option.{option_and_then, option_copied};
ghost use Rattle.wat_print.specs.Locks.{names_at, index_name, table_text, index_text, place_text, resource_text, kind_text, lock_text};

use crate::literal::{push_listed, push_number};
use wat_conn::TableName;
use wat_list::NoMemory;
use wat_locks::{Lock, LockKind, Resource};
use wat_value::{Key, Name, Place};

/// The names of the table with the number.
fn names_at(names: &[TableName], table: u32) -> Option<&TableName>
    ensures { option_copied result ≡ names_at names.now table }
{
    names.iter().find(|n| table == n.number)
}

/// The name of an index, of which the first has the number 1.
fn index_name(names: &[TableName], table: u32, index: u8) -> Option<&Name>
    ensures { option_copied result ≡ option_and_then (index_name index) (names_at names.now table) }
{
    let found = names_at(names, table)?;
    found
        .indexes
        .as_slice()
        .get(usize::from(index).saturating_sub(1))
}

fn push_table(out: &mut Vec<u8>, names: &[TableName], table: u32) -> Result<(), NoMemory>
    ensures { OnOk result (out.new.items ≡ out.old.items ++ table_text names.now table) }
{
    match names_at(names, table) {
        Some(found) => out.extend_from_slice(found.name.as_str().as_bytes()),
        None => push_number(out, u64::from(table)),
    }
}

fn push_index(out: &mut Vec<u8>, names: &[TableName], table: u32, index: u8) -> Result<(), NoMemory>
    ensures { OnOk result (out.new.items ≡ out.old.items ++ index_text names.now table index) }
{
    if index == 0 {
        return out.extend_from_slice(b"primary");
    }
    match index_name(names, table, index) {
        Some(name) => out.extend_from_slice(name.as_str().as_bytes()),
        None => push_number(out, u64::from(index)),
    }
}

fn push_place(out: &mut Vec<u8>, place: &Place) -> Result<(), NoMemory>
    ensures { OnOk result (out.new.items ≡ out.old.items ++ place_text place.now) }
{
    match place {
        Place::At(key) => push_listed(out, key.as_slice()),
        Place::End => out.extend_from_slice(b"end"),
    }
}

fn push_row_named(
    out: &mut Vec<u8>,
    names: &[TableName],
    table: u32,
    key: &Key,
) -> Result<(), NoMemory>
    ensures { OnOk result (out.new.items ≡ out.old.items ++ resource_text names.now (Resource.Row table key.now)) }
{
    push_table(out, names, table)?;
    out.extend_from_slice(b" ")?;
    push_listed(out, key.as_slice())
}

fn push_gap(
    out: &mut Vec<u8>,
    names: &[TableName],
    table: u32,
    index: u8,
    place: &Place,
) -> Result<(), NoMemory>
    ensures { OnOk result (out.new.items ≡ out.old.items ++ resource_text names.now (Resource.Gap table index place.now)) }
{
    push_table(out, names, table)?;
    out.extend_from_slice(b".")?;
    push_index(out, names, table, index)?;
    out.extend_from_slice(b" ")?;
    push_place(out, place)
}

fn push_resource(
    out: &mut Vec<u8>,
    names: &[TableName],
    resource: &Resource,
) -> Result<(), NoMemory>
    ensures { OnOk result (out.new.items ≡ out.old.items ++ resource_text names.now resource.now) }
{
    match resource {
        Resource::Row { table, key } => push_row_named(out, names, *table, key),
        Resource::Gap {
            table,
            index,
            place,
        } => push_gap(out, names, *table, *index, place),
    }
}

fn push_kind(out: &mut Vec<u8>, kind: LockKind) -> Result<(), NoMemory>
    ensures { OnOk result (out.new.items ≡ out.old.items ++ kind_text kind) }
{
    match kind {
        LockKind::Read => out.extend_from_slice(b"read on "),
        LockKind::Write => out.extend_from_slice(b"write on "),
        LockKind::Phantom => out.extend_from_slice(b"phantom on "),
        LockKind::AntiPhantom => out.extend_from_slice(b"anti-phantom on "),
    }
}

/// Appends a lock by the names of its table and its index.
pub(crate) fn push_lock(out: &mut Vec<u8>, names: &[TableName], lock: &Lock) -> Result<(), NoMemory>
    ensures { OnOk result (out.new.items ≡ out.old.items ++ lock_text names.now lock.now) }
{
    push_kind(out, lock.kind)?;
    push_resource(out, names, &lock.resource)
}

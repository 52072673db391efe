ghost use Rattle.std.specs.Prelude.{◌≤◌, length, IfOk, IsTrue, OnOk};
ghost use Rattle.wat_pages.specs.Pages.{IsPagesOf};
ghost use Rattle.wat_value.specs.Encoding.{row_bytes};

use std::alloc::{AllocError, Global};
use wat_disk::{Disk, MemoryDisk};
use wat_heap::Heap;
use wat_list::Items;
use wat_pages::{PageRefusal, Pages, Within};
use wat_value::{Key, Row, Text, Value, encode, is_short};

// Main with the header of two pages, of which none is free, and a page behind it.
fn main_file(alloc: Global) -> Result<Vec<u8>, AllocError> {
    let mut main = Vec::from_slice(alloc, b"WATSQL01")?;
    for number in [1u32, 4096, 1_048_576, 2] {
        main.extend_from_slice(&number.to_be_bytes())?;
    }
    main.resize(40, 0)?;
    for number in [1u32, 0, 0, 1] {
        main.extend_from_slice(&number.to_be_bytes())?;
    }
    main.resize(8192, 0)?;
    Ok(main)
}

fn disk(alloc: Global) -> Result<MemoryDisk, AllocError> {
    let mut before = Vec::new(alloc);
    before.push(0)?;
    let files = vec![in alloc; main_file(alloc)?, before]?;
    MemoryDisk::new(alloc, files, 10_000, Vec::new(alloc))
}

fn key_of(alloc: Global, number: i64) -> Result<Key, AllocError> {
    let mut values = Items::new(alloc);
    values.push(Value::Int(number))?;
    Ok(Key::of(values))
}

fn row_of(alloc: Global, number: i64, text: &str) -> Result<Row, AllocError> {
    let mut row = Items::new(alloc);
    row.push(Value::Int(number))?;
    row.push(Value::Text(Text::of(alloc, text)?))?;
    Ok(row)
}

// Numbers in no order, hardly any of them twice.
fn number(turn: u32) -> i64 {
    i64::from((turn.wrapping_mul(48_271)) % 1_000_003)
}

// Whether the row takes at most 3,500 bytes.
fn is_small(alloc: Global, row: &Row) -> Result<bool, AllocError>
    ensures { IfOk result (λ small. IsTrue small → length (row_bytes row.now) ≤ 3500) }
{
    if !is_short(row) {
        return Ok(false);
    }
    let mut bytes = Vec::new(alloc);
    encode(row, &mut bytes)?;
    Ok(bytes.len() <= 3500)
}

fn put<D: Disk>(
    alloc: Global,
    heap: &mut Heap,
    pages: &mut Pages,
    disk: &mut D,
    number: i64,
    text: &str,
) -> Result<(), PageRefusal>
    requires { D.tells_content → IsPagesOf (D.told disk.old) pages.old }
    ensures { D.tells_content → OnOk result (IsPagesOf (D.told disk.new) pages.new) }
{
    let row = row_of(alloc, number, text)?;
    let key = key_of(alloc, number)?;
    if !is_small(alloc, &row)? {
        return Err(PageRefusal::Memory);
    }
    heap.put(pages, disk, 1, &key, &row, Within::Limit)
}

fn stands<D: Disk>(
    alloc: Global,
    heap: &Heap,
    pages: &mut Pages,
    disk: &mut D,
    number: i64,
) -> Result<bool, PageRefusal>
    requires { D.tells_content → IsPagesOf (D.told disk.old) pages.old }
    ensures { D.tells_content → OnOk result (IsPagesOf (D.told disk.new) pages.new) }
{
    let key = key_of(alloc, number)?;
    match heap.get(pages, disk, 1, &key) {
        Ok(row) => Ok(row.is_some()),
        Err(refusal) => Err(refusal),
    }
}

// Puts so many rows, reads each back, and counts those that it finds.
fn run<D: Disk>(alloc: Global, disk: &mut D, count: u32, text: &str) -> Result<u32, PageRefusal> {
    let mut pages = Pages::open(alloc, disk)?;
    let mut heap = Heap::new(alloc);
    for turn in 0..count {
        put(alloc, &mut heap, &mut pages, disk, number(turn), text)?;
    }
    let mut found = 0u32;
    for turn in 0..count {
        if stands(alloc, &heap, &mut pages, disk, number(turn))? {
            found = found.wrapping_add(1);
        }
    }
    Ok(found)
}

fn text_of(alloc: Global, len: u32) -> Result<String, AllocError> {
    let mut text = String::new(alloc);
    for _place in 0..len {
        text.push('x')?;
    }
    Ok(text)
}

/// How many of so many rows, with texts of so many bytes, are found after all were put. `None` where a call on pages refused.
pub(crate) fn found(alloc: Global, count: u32, len: u32) -> Result<Option<u32>, AllocError> {
    let text = text_of(alloc, len)?;
    let mut disk = disk(alloc)?;
    Ok(run(alloc, &mut disk, count, text.as_str()).ok())
}

// Rows put, read and taken off.
ghost use Rattle.std.specs.Prelude.{◌≤◌, length, IfOk, IsTrue, OnOk};
ghost use Rattle.wat_pages.specs.Pages.{IsPagesOf};
ghost use Rattle.wat_value.specs.Encoding.{row_bytes};

use crate::files::disk_of;
use std::alloc::{AllocError, Global};
use std::test::Fail;
use wat_disk::Disk;
use wat_heap::Heap;
use wat_list::Items;
use wat_pages::{PageRefusal, Pages, Within};
use wat_slot::{Page, cells};
use wat_value::{Key, Row, Text, Value, encode, is_short};

#[derive(Clone, Copy, Debug)]
enum Step {
    /// A row of this key, with a text of so many bytes. Its cell takes 20 bytes more.
    Put { key: i64, len: u16 },
    Remove { key: i64 },
}

fn key_of(alloc: Global, number: i64) -> Result<Key, AllocError> {
    let mut values = Items::new(alloc);
    values.push(Value::Int(number))?;
    Ok(Key::of(values))
}

fn text_of(alloc: Global, len: u16) -> Result<Text, AllocError> {
    let mut text = String::new(alloc);
    for _ in 0..len {
        text.push('x')?;
    }
    Text::of(alloc, text.as_str())
}

fn row_of(alloc: Global, number: i64, len: u16) -> Result<Row, AllocError> {
    let mut row = Items::new(alloc);
    row.push(Value::Int(number))?;
    row.push(Value::Text(text_of(alloc, len)?))?;
    Ok(row)
}

// Whether the row takes at most 3,500 bytes.
fn is_small(alloc: Global, row: &Row) -> Result<bool, AllocError>
    ensures { IfOk result (λ small. IsTrue small → length (row_bytes row.now) ≤ 3500) }
{
    if !is_short(row) {
        return Ok(false);
    }
    let mut bytes = Vec::new(alloc);
    encode(row, &mut bytes)?;
    Ok(bytes.len() <= 3500)
}

fn put_row<D: Disk>(
    alloc: Global,
    heap: &mut Heap,
    pages: &mut Pages,
    disk: &mut D,
    key: i64,
    len: u16,
) -> Result<(), PageRefusal>
    requires { D.tells_content → IsPagesOf (D.told disk.old) pages.old }
    ensures { D.tells_content → OnOk result (IsPagesOf (D.told disk.new) pages.new) }
{
    let row = row_of(alloc, key, len)?;
    let key = key_of(alloc, key)?;
    if !is_small(alloc, &row)? {
        return Err(PageRefusal::Memory);
    }
    heap.put(pages, disk, 1, &key, &row, Within::Limit)
}

fn remove_row<D: Disk>(
    alloc: Global,
    heap: &mut Heap,
    pages: &mut Pages,
    disk: &mut D,
    key: i64,
) -> Result<(), PageRefusal>
    requires { D.tells_content → IsPagesOf (D.told disk.old) pages.old }
    ensures { D.tells_content → OnOk result (IsPagesOf (D.told disk.new) pages.new) }
{
    let key = key_of(alloc, key)?;
    heap.remove(pages, disk, 1, &key)
}

fn make<D: Disk>(
    alloc: Global,
    heap: &mut Heap,
    pages: &mut Pages,
    disk: &mut D,
    step: Step,
) -> Result<(), PageRefusal>
    requires { D.tells_content → IsPagesOf (D.told disk.old) pages.old }
    ensures { D.tells_content → OnOk result (IsPagesOf (D.told disk.new) pages.new) }
{
    match step {
        Step::Put { key, len } => put_row(alloc, heap, pages, disk, key, len),
        Step::Remove { key } => remove_row(alloc, heap, pages, disk, key),
    }
}

// How many cells a page has, and 0 where it is no row page.
fn cells_on<D: Disk>(
    alloc: Global,
    pages: &mut Pages,
    disk: &mut D,
    page: u32,
) -> Result<usize, PageRefusal>
    requires { D.tells_content → IsPagesOf (D.told disk.old) pages.old }
    ensures { D.tells_content → OnOk result (IsPagesOf (D.told disk.new) pages.new) }
{
    if page >= pages.count() {
        return Ok(0);
    }
    let mut bytes = Page::new(alloc)?;
    pages.read_page(disk, page, &mut bytes)?;
    match cells(alloc, &bytes)? {
        Some(cells) => Ok(cells.len()),
        None => Ok(0),
    }
}

// How many cells each page has from page 2 on, after these steps.
fn counts<D: Disk>(alloc: Global, disk: &mut D, steps: &[Step]) -> Result<Vec<usize>, PageRefusal> {
    let mut pages = Pages::open(alloc, disk)?;
    let mut heap = Heap::new(alloc);
    for one in steps {
        make(alloc, &mut heap, &mut pages, disk, *one)?;
    }
    let mut counts = Vec::new(alloc);
    for page in 2..pages.count() {
        counts.push(cells_on(alloc, &mut pages, disk, page)?)?;
    }
    Ok(counts)
}

const fn put(key: i64, len: u16) -> Step {
    Step::Put { key, len }
}

const fn remove(key: i64) -> Step {
    Step::Remove { key }
}

// A page has room for 4,080 bytes of cells. A page that is freed stays, and is taken next.
#[test]
fn rows_stand_on_the_least_page_with_room(rt: HostRuntime) -> Result<(), Fail> {
    let cases: [(&[Step], &[usize]); 12] = [
        // Up to the last byte, and one past it.
        (&[put(1, 2000), put(2, 2040)], &[2]),
        (&[put(1, 2000), put(2, 2041)], &[1, 1]),
        (&[put(1, 3486), put(2, 554)], &[2]),
        (&[put(1, 3486), put(2, 555)], &[1, 1]),
        // The least page with room, also behind a later one.
        (&[put(1, 2500), put(2, 2500), put(3, 1000)], &[2, 1]),
        (&[put(1, 2500), put(2, 1600), put(3, 1000)], &[2, 1]),
        // A row that grows stays while its page has room, and else is placed anew.
        (&[put(1, 2000), put(2, 2000), put(1, 2040)], &[2]),
        (&[put(1, 2000), put(2, 2000), put(1, 2041)], &[1, 1]),
        // One that shrinks stays, and gives its room to another.
        (
            &[put(1, 2000), put(2, 2040), put(1, 100), put(3, 1880)],
            &[3],
        ),
        // A page without rows is freed, and taken again.
        (&[put(1, 3000), put(2, 3000), remove(1)], &[0, 1]),
        (
            &[put(1, 3000), put(2, 3000), remove(1), put(3, 3000)],
            &[1, 1],
        ),
        // A row that isn't there is not removed.
        (&[put(1, 3000), remove(2)], &[1]),
    ];
    for (steps, want) in cases {
        let mut disk = disk_of(rt.alloc(), 16)?;
        let found = counts(rt.alloc(), &mut disk, steps).ok().ok_or("counts")?;
        assert_eq!(rt; found.as_slice(), want, "{steps:?}");
    }
    Ok(())
}

// The two rows take all bytes of the first page, or so many more.
#[test]
fn a_page_is_taken_past_the_last_byte_alone(rt: HostRuntime) -> Result<(), Fail> {
    for first in 3450..3487u16 {
        for more in 0..3u16 {
            let steps = [put(1, first), put(2, (4039 + more).saturating_sub(first))];
            let mut disk = disk_of(rt.alloc(), 16)?;
            let found = counts(rt.alloc(), &mut disk, &steps).ok().ok_or("counts")?;
            assert_eq!(rt; found.len() == 1, more < 2, "{first} and {more}");
        }
    }
    Ok(())
}

fn has_row<D: Disk>(
    alloc: Global,
    heap: &Heap,
    pages: &mut Pages,
    disk: &mut D,
    key: i64,
) -> Result<bool, PageRefusal>
    requires { D.tells_content → IsPagesOf (D.told disk.old) pages.old }
    ensures { D.tells_content → OnOk result (IsPagesOf (D.told disk.new) pages.new) }
{
    let key = key_of(alloc, key)?;
    match heap.get(pages, disk, 1, &key) {
        Ok(row) => Ok(row.is_some()),
        Err(refusal) => Err(refusal),
    }
}

// Whether the row stands before and after it is removed.
fn stands<D: Disk>(alloc: Global, disk: &mut D) -> Result<[bool; 2], PageRefusal> {
    let mut pages = Pages::open(alloc, disk)?;
    let mut heap = Heap::new(alloc);
    put_row(alloc, &mut heap, &mut pages, disk, 10, 3)?;
    let before = has_row(alloc, &heap, &mut pages, disk, 10)?;
    remove_row(alloc, &mut heap, &mut pages, disk, 10)?;
    let after = has_row(alloc, &heap, &mut pages, disk, 10)?;
    Ok([before, after])
}

#[test]
fn a_row_stands_until_it_is_taken_off(rt: HostRuntime) -> Result<(), Fail> {
    let mut disk = disk_of(rt.alloc(), 16)?;
    assert_eq!(rt;
        stands(rt.alloc(), &mut disk).ok().ok_or("stands")?,
        [true, false]
    );
    Ok(())
}

ghost use Rattle.std.specs.Prelude.{◌≡◌, ◌↔◌, ◌+◌, ◌<◌, ◌≤◌, ◌^◌, List, ℕ, length, take, IfOk, IfSome, IfNone, IsTrue};
ghost use Rattle.std.specs.Int.{w16, from_be_bytes};
ghost use Rattle.wat_slot.specs.Cells.{cells_bytes, cells_front, IsCellPage, BeginsWithCell};

use crate::Page;
use std::alloc::Global;
use wat_list::{Items, NoMemory};

/// The byte in front of a page of rows.
const ROWS: u8 = 3;

/// Where the first cell of a page stands.
const FIRST: usize = 16;

/// How many bytes the cells of a page take at most, with their lengths.
const ROOM: usize = 4_080;

/// A cell: its bytes.
pub type Cell = Items<u8>;

/// The cells of a page, in their order.
pub type Cells = Items<Cell>;

/// The first 16 bytes of a page of so many cells.
fn front(count: u16) -> [u8; 16]
    ensures { result ≡ cells_front count }
{
    let [high, low] = count.to_be_bytes();
    [ROWS, 0, high, low, 0, 0, 0, 0, 0, 0, 0, 0, 0, 0, 0, 0]
}

fn same(a: &[u8], b: &[u8]) -> bool
    ensures { IsTrue result ↔ (a.now ≡ b.now) }
{
    a == b
}

/// How many cells the page says that it has, if its first 16 bytes are those of a page of rows.
fn count_in(bytes: &[u8]) -> Option<u16>
    requires { length bytes.now ≡ 4096 }
    ensures some { IfSome result (λ count. take 16 bytes.now ≡ cells_front count) }
    ensures fits { IfSome result (λ count. count < 2 ^ 16) }
    ensures none { IfNone result ((count : ℕ) → count < 2 ^ 16 → take 16 bytes.now ≡ cells_front count → ⊥) }
{
    let count = u16::from_be_bytes([bytes[2], bytes[3]]);
    if same(&bytes[..FIRST], &front(count)) {
        Some(count)
    } else {
        None
    }
}

/// The cell that the bytes begin with, behind its length.
fn first_cell(bytes: &[u8]) -> Option<&[u8]>
    ensures some { IfSome result (λ cell. BeginsWithCell bytes.now cell.now) }
    ensures none { IfNone result ((cell : List ℕ) → BeginsWithCell bytes.now cell → ⊥) }
{
    if bytes.len() < 2 {
        return None;
    }
    let len = u16::from_be_bytes([bytes[0], bytes[1]]) as usize;
    let rest = &bytes[2..];
    if rest.len() < len {
        return None;
    }
    Some(&rest[..len])
}

/// The cells of a page of rows, and `None` exactly where the page is none.
pub fn cells(alloc: Global, page: &Page) -> Result<Option<Cells>, NoMemory>
    ensures some { IfOk result (λ o. IfSome o (IsCellPage page.now)) }
    ensures none { IfOk result (λ o. IfNone o ((cells : List (List ℕ)) → IsCellPage page.now cells → ⊥)) }
{
    let bytes = page.as_slice();
    let Some(count) = count_in(bytes) else {
        return Ok(None);
    };
    let mut cells = Items::new(alloc);
    let mut at = FIRST;
    for _i in 0..count {
        let Some(cell) = first_cell(&bytes[at..]) else {
            return Ok(None);
        };
        cells.push(Items::from_slice(alloc, cell)?)?;
        at += 2 + cell.len();
    }
    Ok(Some(cells))
}

/// Whether the cells with their lengths take at most 4,080 bytes.
fn have_room(cells: &[Cell]) -> bool
    ensures { IsTrue result ↔ (length (cells_bytes cells.now) ≤ 4080) }
{
    let mut left = ROOM;
    for cell in cells {
        let len = cell.len();
        if left < 2 || left - 2 < len {
            return false;
        }
        left -= 2 + len;
    }
    true
}

/// Makes the page one of these cells.
fn write_cells(cells: &[Cell], page: &mut Page)
    requires { length (cells_bytes cells.now) ≤ 4080 }
    ensures { IsCellPage page.new cells.now }
{
    page.write_at(0, &front(cells.len() as u16));
    let mut at = FIRST;
    for cell in cells {
        let len = cell.len();
        page.write_at(at, &(len as u16).to_be_bytes());
        page.write_at(at + 2, cell.as_slice());
        at += 2 + len;
    }
}

/// Makes the page one of these cells. It is `false` exactly where they have no room, and then the page is as before.
pub fn put_cells(cells: &Cells, page: &mut Page) -> bool
    ensures room { IsTrue result ↔ (16 + length (cells_bytes cells.now) ≤ 4096) }
    ensures put { 16 + length (cells_bytes cells.now) ≤ 4096 → IsCellPage page.new cells.now }
    ensures kept { 4096 < 16 + length (cells_bytes cells.now) → page.new ≡ page.old }
{
    if !have_room(cells.as_slice()) {
        return false;
    }
    write_cells(cells.as_slice(), page);
    true
}

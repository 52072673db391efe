// The header's page and free pages, as bytes.
ghost use Rattle.std.specs.Prelude.{◌≡◌, ◌+◌, ◌++◌, ◌<◌, ◌≤◌, ◌∷◌, [], ◌↔◌, length, replicate, take, IfOk, IfSome, IfNone, IsTrue};
ghost use Rattle.wat_restore.specs.Head.{Head, head_fields, head_bytes, FitsPage, IsHead, number_at, long_at, ReadsAs};
ghost use Rattle.wat_book.specs.Book.{next_in};
ghost use Rattle.wat_pages.specs.Header.{head_of, stored_head};

use std::alloc::Global;
use wat_list::NoMemory;
use wat_slot::Page;

/// What a caller gives of the header: the log's frames at the checkpoint and the place of its gate there, the first pages of
/// the catalog and of the changes to roll back (0 where there are none), and the number of the next table.
#[derive(Clone, Copy, Debug, PartialEq, Eq)]
pub struct Header {
    pub frames: u64,
    pub place: u64,
    pub catalog: u32,
    pub rollback: u32,
    pub next_table: u32,
}

/// A header as it is stored, with the pages' own fields.
#[derive(Clone, Copy, Debug, PartialEq, Eq)]
pub struct StoredHeader {
    pub header: Header,
    pub limit: u32,
    pub count: u32,
    pub first_free: u32,
}

/// The fields, one behind the other.
fn fields(
    alloc: Global,
    header: &Header,
    limit: u32,
    count: u32,
    free: u32,
) -> Result<Vec<u8>, NoMemory>
    ensures { IfOk result (λ bytes. bytes.items ≡ head_fields (head_of header.now limit count free)) }
{
    let mut bytes = Vec::from_slice(alloc, b"WATSQL01")?;
    bytes.extend_from_slice(&1u32.to_be_bytes())?;
    bytes.extend_from_slice(&4096u32.to_be_bytes())?;
    bytes.extend_from_slice(&limit.to_be_bytes())?;
    bytes.extend_from_slice(&count.to_be_bytes())?;
    bytes.extend_from_slice(&header.frames.to_be_bytes())?;
    bytes.extend_from_slice(&header.place.to_be_bytes())?;
    bytes.extend_from_slice(&header.catalog.to_be_bytes())?;
    bytes.extend_from_slice(&header.rollback.to_be_bytes())?;
    bytes.extend_from_slice(&free.to_be_bytes())?;
    bytes.extend_from_slice(&header.next_table.to_be_bytes())?;
    Ok(bytes)
}

fn zeros(alloc: Global, count: usize) -> Result<Vec<u8>, NoMemory>
    ensures { IfOk result (λ bytes. bytes.items ≡ replicate count 0) }
{
    vec![in alloc; 0; count]
}

/// The header's page.
pub fn page_of(
    alloc: Global,
    header: &Header,
    limit: u32,
    count: u32,
    free: u32,
) -> Result<Page, NoMemory>
    ensures page { IfOk result (λ page. page ≡ head_bytes (head_of header.now limit count free)) }
    ensures whole { IfOk result (λ page. length page ≡ 4096) }
{
    let mut bytes = fields(alloc, header, limit, count, free)?;
    let zeros = zeros(alloc, 4096 - 56)?;
    bytes.extend_from_slice(zeros.as_slice())?;
    Page::of(alloc, bytes.as_slice())
}

/// The number of 4 bytes at a place.
fn number(page: &[u8], at: usize) -> u32
    requires { at + 4 ≤ length page.now }
    ensures { result ≡ number_at page.now at }
{
    let bytes = &page[at..];
    u32::from_be_bytes([bytes[0], bytes[1], bytes[2], bytes[3]])
}

/// The number of 8 bytes at a place.
fn long(page: &[u8], at: usize) -> u64
    requires { at + 8 ≤ length page.now }
    ensures { result ≡ long_at page.now at }
{
    let bytes = &page[at..];
    u64::from_be_bytes([
        bytes[0], bytes[1], bytes[2], bytes[3], bytes[4], bytes[5], bytes[6], bytes[7],
    ])
}

/// What stands in the fields of a page.
fn fields_in(page: &[u8]) -> StoredHeader
    requires { length page.now ≡ 4096 }
    ensures reads { ReadsAs page.now (stored_head result) }
    ensures fits { 2 ≤ result.count → FitsPage (stored_head result) }
{
    StoredHeader {
        header: Header {
            frames: long(page, 24),
            place: long(page, 32),
            catalog: number(page, 40),
            rollback: number(page, 44),
            next_table: number(page, 52),
        },
        limit: number(page, 16),
        count: number(page, 20),
        first_free: number(page, 48),
    }
}

fn same(a: &[u8], b: &[u8]) -> bool
    ensures { IsTrue result ↔ (a.now ≡ b.now) }
{
    a == b
}

/// The header that a page tells, and `None` exactly where it is no header's page.
pub fn header_in(alloc: Global, page: &[u8]) -> Result<Option<StoredHeader>, NoMemory>
    requires { length page.now ≡ 4096 }
    ensures some { IfOk result (λ o. IfSome o (λ stored. IsHead page.now (stored_head stored))) }
    ensures none { IfOk result (λ o. IfNone o ((head : Head) → IsHead page.now head → ⊥)) }
{
    let stored = fields_in(page);
    if stored.count < 2 {
        return Ok(None);
    }
    let again = page_of(
        alloc,
        &stored.header,
        stored.limit,
        stored.count,
        stored.first_free,
    )?;
    if same(again.as_slice(), page) {
        Ok(Some(stored))
    } else {
        Ok(None)
    }
}

/// A free page, which tells the next one.
pub fn free_page(alloc: Global, next: u32) -> Result<Page, NoMemory>
    ensures kind { IfOk result (λ page. take 1 page ≡ 4 ∷ []) }
    ensures tells { IfOk result (λ page. next_in page ≡ next) }
    ensures whole { IfOk result (λ page. length page ≡ 4096) }
{
    let mut bytes = Vec::from_slice(alloc, &[4, 0, 0, 0])?;
    bytes.extend_from_slice(&next.to_be_bytes())?;
    let zeros = zeros(alloc, 4096 - 8)?;
    bytes.extend_from_slice(zeros.as_slice())?;
    Page::of(alloc, bytes.as_slice())
}

/// The number of the next page, in a free page.
pub fn next_of(page: &Page) -> u32
    ensures { result ≡ next_in page.now }
{
    let bytes = page.as_slice();
    u32::from_be_bytes([bytes[4], bytes[5], bytes[6], bytes[7]])
}

// A page of a chain, as bytes.
ghost use Rattle.std.specs.Prelude.{◌≡◌, ◌↔◌, ◌≤◌, ℕ, List, length, take, IfOk, IfSome, IfNone, IsTrue};
ghost use Rattle.wat_book.specs.Chains.{chain_front, IsChainPage};

use std::alloc::Global;
use wat_list::NoMemory;
use wat_slot::Page;

/// The byte in front of a page of a chain.
const CHAIN: u8 = 2;

/// Where the part of the payload stands.
const PART: usize = 16;

/// The first 16 bytes of a page of a chain.
fn front(next: u32, count: u16) -> [u8; 16]
    ensures { result ≡ chain_front next count }
{
    let [a, b, c, d] = next.to_be_bytes();
    let [high, low] = count.to_be_bytes();
    [CHAIN, 0, 0, 0, a, b, c, d, high, low, 0, 0, 0, 0, 0, 0]
}

fn same(a: &[u8], b: &[u8]) -> bool
    ensures { IsTrue result ↔ (a.now ≡ b.now) }
{
    a == b
}

/// The next page and the part of the payload that a page tells; `None` exactly where it is no page of a chain.
pub(crate) fn link_in(page: &[u8]) -> Option<(u32, &[u8])>
    requires { length page.now ≡ 4096 }
    ensures some { IfSome result (λ link. IsChainPage page.now link.0 link.1.now) }
    ensures none { IfNone result ((next : ℕ) (part : List ℕ) → IsChainPage page.now next part → ⊥) }
{
    let next = u32::from_be_bytes([page[4], page[5], page[6], page[7]]);
    let count = u16::from_be_bytes([page[8], page[9]]);
    if count > 4080 {
        return None;
    }
    if same(&page[..PART], &front(next, count)) {
        Some((next, &page[PART..PART + count as usize]))
    } else {
        None
    }
}

/// The page that tells this next one, or 0, and has this part of the payload, of at most 4,080 bytes.
pub(crate) fn link_page(alloc: Global, next: u32, part: &[u8]) -> Result<Page, NoMemory>
    requires { length part.now ≤ 4080 }
    ensures link { IfOk result (λ page. IsChainPage page next part.now) }
{
    let mut page = Page::new(alloc)?;
    page.write_at(0, &front(next, part.len() as u16));
    page.write_at(PART, part);
    Ok(page)
}

// Chains that break the rules, and where.
use crate::files::{disk_of, main_of};
use std::alloc::Global;
use std::test::Fail;
use wat_disk::{Disk, FileId};
use wat_pages::{PageRefusal, Pages};
use wat_payload::read_chain;

// How many pages the chain has that begins at a page, where page 1 was met before.
fn pages_of<D: Disk>(alloc: Global, disk: &mut D) -> Result<usize, PageRefusal> {
    let mut pages = Pages::open(alloc, disk)?;
    let first = pages.header().rollback;
    let chain = read_chain(alloc, &mut pages, disk, first, &[1])?;
    Ok(chain.pages.len())
}

fn at(page: u64) -> Result<usize, PageRefusal> {
    Err(PageRefusal::Damaged {
        file: FileId(0),
        at: page.saturating_mul(4096),
    })
}

// The first byte, the next page and the number of bytes of a page of a chain.
const LAST: &[u8] = &[2, 0, 0, 0, 0, 0, 0, 0, 0, 1];

const TO_2: &[u8] = &[2, 0, 0, 0, 0, 0, 0, 2, 0, 0];

const TO_3: &[u8] = &[2, 0, 0, 0, 0, 0, 0, 3, 15, 240];

#[test]
fn a_chain_is_damaged_at_the_first_page_that_breaks_the_rules(rt: HostRuntime) -> Result<(), Fail> {
    let cases: [(u8, &[u8], &[u8], Result<usize, PageRefusal>); 15] = [
        (0, LAST, LAST, Ok(0)),
        (2, LAST, LAST, Ok(1)),
        (2, TO_3, LAST, Ok(2)),
        (1, LAST, LAST, at(1)),
        (4, LAST, LAST, at(4)),
        (2, &[3], LAST, at(2)),
        (2, &[2, 1], LAST, at(2)),
        (2, &[2, 0, 0, 0, 0, 0, 0, 0, 15, 241], LAST, at(2)),
        (2, &[2, 0, 0, 0, 0, 0, 0, 0, 0, 1, 1], LAST, at(2)),
        (
            2,
            &[2, 0, 0, 0, 0, 0, 0, 0, 0, 1, 0, 0, 0, 0, 0, 1],
            LAST,
            at(2),
        ),
        (2, TO_3, &[4], at(3)),
        (2, TO_2, LAST, at(2)),
        (2, TO_3, TO_2, at(2)),
        (3, LAST, &[2, 0, 0, 0, 0, 0, 0, 1, 0, 0], at(1)),
        (2, &[2, 0, 0, 0, 1, 0, 0, 3, 0, 0], LAST, at(16_777_219)),
    ];
    for (first, two, three, want) in cases {
        let main = main_of(rt.alloc(), first, &[LAST, two, three])?;
        let mut disk = disk_of(rt.alloc(), main)?;
        let read = pages_of(rt.alloc(), &mut disk);
        assert_eq!(rt; read, want, "{first} {two:?} {three:?}");
    }
    Ok(())
}

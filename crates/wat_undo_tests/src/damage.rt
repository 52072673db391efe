// Chains that tell no lists, and where they are damaged.
use crate::files::{disk_of, main_of};
use std::alloc::Global;
use std::test::Fail;
use wat_disk::{Disk, FileId};
use wat_pages::{PageRefusal, Pages};
use wat_undo::Undo;

fn at(page: u64) -> Result<usize, PageRefusal> {
    Err(PageRefusal::Damaged {
        file: FileId(0),
        at: page.saturating_mul(4096),
    })
}

// How many connections have changes.
fn loaded<D: Disk>(alloc: Global, disk: &mut D) -> Result<usize, PageRefusal> {
    let mut pages = Pages::open(alloc, disk)?;
    let first = pages.header().rollback;
    let undo = Undo::load(alloc, &mut pages, disk, first)?;
    Ok(undo.len())
}

// A page of a chain that has so many bytes, which begin with these.
const FRONT: usize = 16;

fn page_of(alloc: Global, payload: &[u8]) -> Result<Vec<u8>, Fail> {
    let mut page = vec![in alloc; 0; FRONT]?;
    page[0] = 2;
    page[9] = payload.len().min(255) as u8;
    page.extend_from_slice(payload)?;
    Ok(page)
}

// No connection; one without changes; two that ascend; two that don't; one that comes twice; bytes that are missing and
// that are too many; a change of no kind.
#[test]
fn a_payload_that_is_no_lists_is_damaged_at_its_first_page(rt: HostRuntime) -> Result<(), Fail> {
    let cases: [(&[u8], Result<usize, PageRefusal>); 10] = [
        (&[], at(2)),
        (&[0], at(2)),
        (&[0, 0], Ok(0)),
        (&[0, 0, 9], at(2)),
        (&[0, 1, 0, 7, 0, 0, 0, 0], Ok(0)),
        (&[0, 2, 0, 7, 0, 0, 0, 0, 0, 8, 0, 0, 0, 0], Ok(0)),
        (&[0, 2, 0, 8, 0, 0, 0, 0, 0, 7, 0, 0, 0, 0], at(2)),
        (&[0, 2, 0, 7, 0, 0, 0, 0, 0, 7, 0, 0, 0, 0], at(2)),
        (&[0, 1, 0, 7, 0, 0, 0, 1, 3, 0, 0, 0, 1, 0, 1, 0], Ok(1)),
        (&[0, 1, 0, 7, 0, 0, 0, 1, 4, 0, 0, 0, 1, 0, 1, 0], at(2)),
    ];
    for (payload, want) in cases {
        let page = page_of(rt.alloc(), payload)?;
        let main = main_of(rt.alloc(), 2, &[&[3], page.as_slice()])?;
        let mut disk = disk_of(rt.alloc(), main)?;
        let read = loaded(rt.alloc(), &mut disk);
        assert_eq!(rt; read, want, "{payload:?}");
    }
    Ok(())
}

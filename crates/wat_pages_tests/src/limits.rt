// How many pages there may be.
use crate::files::{Filled, Told, disk_of, main_of};
use std::alloc::Global;
use std::test::Fail;
use wat_disk::{Disk, MemoryDisk};
use wat_pages::{PageRefusal, Pages, Within};

fn taken<D: Disk>(
    alloc: Global,
    disk: &mut D,
    within: &[Within],
) -> Result<Vec<Result<u32, PageRefusal>>, PageRefusal> {
    let mut pages = Pages::open(alloc, disk)?;
    let mut answers = Vec::new(alloc);
    for within in within {
        match pages.new_page(disk, *within) {
            Ok(page) => answers.push(Ok(page))?,
            Err(refusal) => {
                answers.push(Err(refusal))?;
                return Ok(answers);
            }
        }
    }
    Ok(answers)
}

// Sixteen pages, the first free one or none.
fn sixteen(alloc: Global, first_free: u8) -> Result<MemoryDisk, Fail> {
    let told = Told {
        limit: 16,
        count: 16,
        first_free,
    };
    let pages = [Filled::Free { next: 0 }; 15];
    disk_of(alloc, main_of(alloc, told, &pages)?, &[0], 10_000)
}

#[test]
fn a_page_is_refused_exactly_at_the_limit(rt: HostRuntime) -> Result<(), Fail> {
    let full = Err(PageRefusal::PageLimit {
        count: 16,
        limit: 16,
    });
    let cases: [(u8, &[Within], &[Result<u32, PageRefusal>]); 4] = [
        (0, &[Within::Limit], &[full]),
        (0, &[Within::Any, Within::Any], &[Ok(16), Ok(17)]),
        (9, &[Within::Limit, Within::Limit], &[Ok(9), full]),
        (9, &[Within::Any, Within::Any], &[Ok(9), Ok(16)]),
    ];
    for (first_free, within, want) in cases {
        let mut disk = sixteen(rt.alloc(), first_free)?;
        let answers = taken(rt.alloc(), &mut disk, within).ok().ok_or("taken")?;
        assert_eq!(rt; answers.as_slice(), want);
    }
    Ok(())
}

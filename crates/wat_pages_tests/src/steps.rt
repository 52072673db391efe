// Steps over pages, one after another, and what pages hold after them.
ghost use Rattle.std.specs.Prelude.{OnOk};
ghost use Rattle.wat_pages.specs.Pages.{IsPagesOf};

use std::alloc::Global;
use wat_disk::Disk;
use wat_pages::{Header, PageRefusal, Pages, Within};
use wat_slot::Page;

// The header that the files' own has too.
pub const HEADER: Header = Header {
    frames: 7,
    place: 99,
    catalog: 1,
    rollback: 0,
    next_table: 3,
};

#[derive(Clone, Copy, Debug)]
pub enum Step {
    New,
    Free { page: u32 },
    Write { page: u32, byte: u8 },
    Checkpoint,
}

// A page that has this byte in all places.
fn filled(alloc: Global, byte: u8) -> Result<Page, PageRefusal> {
    let bytes = [byte; 4096];
    Ok(Page::of(alloc, &bytes)?)
}

fn write<D: Disk>(
    alloc: Global,
    disk: &mut D,
    pages: &mut Pages,
    page: u32,
    byte: u8,
) -> Result<(), PageRefusal>
    requires { D.tells_content → IsPagesOf (D.told disk.old) pages.old }
    ensures { D.tells_content → OnOk result (IsPagesOf (D.told disk.new) pages.new) }
{
    if page == 0 || page >= pages.count() {
        return Err(PageRefusal::Memory);
    }
    let bytes = filled(alloc, byte)?;
    pages.write_page(disk, page, &bytes)
}

fn free<D: Disk>(disk: &mut D, pages: &mut Pages, page: u32) -> Result<(), PageRefusal>
    requires { D.tells_content → IsPagesOf (D.told disk.old) pages.old }
    ensures { D.tells_content → OnOk result (IsPagesOf (D.told disk.new) pages.new) }
{
    if page == 0 || page >= pages.count() {
        return Err(PageRefusal::Memory);
    }
    pages.free_page(disk, page)
}

fn take<D: Disk>(
    alloc: Global,
    disk: &mut D,
    pages: &mut Pages,
    step: Step,
) -> Result<(), PageRefusal>
    requires { D.tells_content → IsPagesOf (D.told disk.old) pages.old }
    ensures { D.tells_content → OnOk result (IsPagesOf (D.told disk.new) pages.new) }
{
    match step {
        Step::New => match pages.new_page(disk, Within::Limit) {
            Ok(_) => Ok(()),
            Err(refusal) => Err(refusal),
        },
        Step::Free { page } => free(disk, pages, page),
        Step::Write { page, byte } => write(alloc, disk, pages, page, byte),
        Step::Checkpoint => pages.checkpoint(disk, &HEADER),
    }
}

// Opens the pages, and takes these steps.
pub fn play<D: Disk>(alloc: Global, disk: &mut D, steps: &[Step]) -> Result<(), PageRefusal> {
    let mut pages = Pages::open(alloc, disk)?;
    for step in steps {
        take(alloc, disk, &mut pages, *step)?;
    }
    Ok(())
}

// What pages hold: their count, the first free one, and the byte of each of the first eight.
#[derive(Clone, Copy, Debug, PartialEq, Eq)]
pub struct Seen {
    pub count: u32,
    pub first_free: u32,
    pub bytes: [u8; 8],
}

// The byte that the page has in all places, 4 for a free one, and else 238.
fn byte_of(page: &Page) -> u8 {
    let bytes = page.as_slice();
    let first = bytes[0];
    if first == 4 || bytes.iter().all(|byte| *byte == first) {
        first
    } else {
        238
    }
}

fn read<D: Disk>(
    alloc: Global,
    disk: &mut D,
    pages: &mut Pages,
    page: u32,
) -> Result<u8, PageRefusal>
    requires { D.tells_content → IsPagesOf (D.told disk.old) pages.old }
    ensures { D.tells_content → OnOk result (IsPagesOf (D.told disk.new) pages.new) }
{
    if page >= pages.count() {
        return Ok(0);
    }
    let mut bytes = Page::new(alloc)?;
    pages.read_page(disk, page, &mut bytes)?;
    Ok(byte_of(&bytes))
}

// Opens the pages, and reads those from 1 to 7.
pub fn seen_on<D: Disk>(alloc: Global, disk: &mut D) -> Result<Seen, PageRefusal> {
    let mut pages = Pages::open(alloc, disk)?;
    let mut bytes = [0; 8];
    for page in 1..8u32 {
        bytes[page as usize] = read(alloc, disk, &mut pages, page)?;
    }
    Ok(Seen {
        count: pages.count(),
        first_free: pages.first_free(),
        bytes,
    })
}

// Pages of cells, byte by byte.
use std::alloc::Global;
use std::test::Fail;
use wat_list::Items;
use wat_slot::{Cells, Page, cells, put_cells};

// Cells of these lengths, each filled with its place.
fn cells_of(alloc: Global, lengths: &[u16]) -> Result<Cells, Fail> {
    let mut made = Items::new(alloc);
    for (place, length) in lengths.iter().enumerate() {
        let bytes = vec![in alloc; place.min(255) as u8; *length as usize]?;
        made.push(Items::from_vec(bytes))?;
    }
    Ok(made)
}

// The lengths of a page's cells, or none where it is no page of cells.
fn lengths_of(alloc: Global, page: &Page) -> Result<Option<Vec<usize>>, Fail> {
    let Some(found) = cells(alloc, page)? else {
        return Ok(None);
    };
    let mut lengths = Vec::new(alloc);
    for cell in found.as_slice() {
        lengths.push(cell.len())?;
    }
    Ok(Some(lengths))
}

fn first_bytes(page: &Page) -> &[u8] {
    let bytes = page.as_slice();
    &bytes[..27]
}

#[test]
fn cells_have_their_bytes(rt: HostRuntime) -> Result<(), Fail> {
    let mut page = Page::new(rt.alloc())?;
    assert!(rt; put_cells(&cells_of(rt.alloc(), &[2, 0, 3])?, &mut page));
    let front = [
        3, 0, 0, 3, 0, 0, 0, 0, 0, 0, 0, 0, 0, 0, 0, 0, 0, 2, 0, 0, 0, 0, 0, 3, 2, 2, 2,
    ];
    assert_eq!(rt; first_bytes(&page), front.as_slice());
    Ok(())
}

// All cells take 4,080 bytes at most, with two for each length.
#[test]
fn cells_are_put_where_they_have_room(rt: HostRuntime) -> Result<(), Fail> {
    let cases: [(&[u16], bool); 6] = [
        (&[], true),
        (&[4078], true),
        (&[4079], false),
        (&[2000, 2076], true),
        (&[2000, 2077], false),
        (&[65535], false),
    ];
    for (lengths, want) in cases {
        let mut page = Page::new(rt.alloc())?;
        let put = put_cells(&cells_of(rt.alloc(), lengths)?, &mut page);
        assert_eq!(rt; put, want, "{lengths:?}");
        let found = lengths_of(rt.alloc(), &page)?;
        assert_eq!(rt; found.is_some(), want, "{lengths:?}");
    }
    Ok(())
}

// A page of zeros, of another kind, with a byte that is no zero, with a cell past the end, with one whose length is cut.
#[test]
fn other_pages_have_no_cells(rt: HostRuntime) -> Result<(), Fail> {
    for (at, bytes) in [
        (0, [0, 0, 0, 0]),
        (0, [2, 0, 0, 0]),
        (0, [3, 1, 0, 0]),
        (12, [0, 0, 0, 1]),
        (16, [0x0f, 0xef, 0, 0]),
    ] {
        let mut page = Page::new(rt.alloc())?;
        if at != 0 {
            page.write_at(0, &[3, 0, 0, 1]);
        }
        page.write_at(at.min(4092), &bytes);
        let found = lengths_of(rt.alloc(), &page)?;
        assert!(rt; found.is_none(), "{bytes:?} at {at}");
    }
    Ok(())
}

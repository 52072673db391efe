//! Copies of lists, and lists that take their room ahead of time.
use std::test::Fail;
use wat_list::{Boxed, Copied, Items, Reserved, item};

#[test]
fn copies_equal_what_they_copy(rt: HostRuntime) -> Result<(), Fail> {
    let list = Items::from_slice(rt.alloc(), &[7u32, 8, 9])?;
    let copy = list.copy(rt.alloc())?;
    assert_eq!(rt; copy.as_slice(), [7, 8, 9].as_slice());
    assert_eq!(rt; copy.len(), 3);
    assert_eq!(rt; *item(&copy, 2), 9);
    Ok(())
}

#[test]
fn copies_of_what_a_box_holds(rt: HostRuntime) -> Result<(), Fail> {
    let boxed = Boxed::new(rt.alloc(), Some(5i64))?;
    let copy = boxed.copy(rt.alloc())?;
    assert_eq!(rt; *copy.get(), Some(5));
    Ok(())
}

#[test]
fn reserved_room_takes_so_many_items(rt: HostRuntime) -> Result<(), Fail> {
    let mut list = Reserved::with_room(rt.alloc(), 2)?;
    assert!(rt; list.is_empty());
    list.push(5u32);
    list.push(6);
    list.try_push(7)?;
    assert_eq!(rt; list.len(), 3);
    assert_eq!(rt; *list.get(1), 6);
    assert_eq!(rt; list.as_slice(), [5, 6, 7].as_slice());
    assert_eq!(rt; list.into_items().as_slice(), [5, 6, 7].as_slice());
    Ok(())
}

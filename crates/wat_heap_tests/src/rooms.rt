// The least page with room.
use std::test::Fail;
use wat_room::Rooms;

#[test]
fn the_least_page_with_room_is_found(rt: HostRuntime) -> Result<(), Fail> {
    let mut rooms = Rooms::Full;
    for (page, room) in [
        (900u32, 40),
        (2, 10),
        (4_294_967_294, 4_080),
        (5, 30),
        (3, 20),
        (900, 35),
    ] {
        rooms = rooms.with(rt.alloc(), page.min(4_294_967_294), room)?;
    }
    for (size, want) in [
        (1, Some(2)),
        (10, Some(2)),
        (11, Some(3)),
        (21, Some(5)),
        (31, Some(900)),
        (36, Some(4_294_967_294)),
        (4_081, None),
    ] {
        assert_eq!(rt; rooms.least_with(size), want, "{size}");
    }
    rooms = rooms.with(rt.alloc(), 2, 0)?;
    assert_eq!(rt; rooms.least_with(1), Some(3));
    Ok(())
}

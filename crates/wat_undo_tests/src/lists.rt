// The lists of changes in memory.
ghost use Rattle.std.specs.Prelude.{IfOk};
ghost use Rattle.wat_log_record.specs.Encoding.{IsWritableChange};

use std::alloc::Global;
use std::test::Fail;
use wat_list::Items;
use wat_undo::Undo;
use wat_value::{Change, Value};

// A row of this number is taken out of table 1.
pub fn deleted(alloc: Global, number: i64) -> Result<Change, Fail>
    ensures { IfOk result (λ change. IsWritableChange change) }
{
    let mut row = Items::new(alloc);
    row.push(Value::Int(number))?;
    Ok(Change::Delete {
        table: 1,
        before: row,
    })
}

// The number of the row, where the change is such a one.
pub fn number_of(change: &Change) -> Option<i64> {
    match change {
        Change::Delete { before, .. } => match before.as_slice() {
            [Value::Int(number)] => Some(*number),
            _ => None,
        },
        _ => None,
    }
}

// These connections' changes, one after another.
pub fn pushed(alloc: Global, changes: &[(u16, i64)]) -> Result<Undo, Fail> {
    let mut undo = Undo::new(alloc);
    for (conn, number) in changes {
        undo.push(*conn, deleted(alloc, *number)?)?;
    }
    Ok(undo)
}

// All changes in order of connection, each connection's in the order in which they were made.
pub fn all_of(alloc: Global, undo: &Undo) -> Result<Vec<(u16, i64)>, Fail> {
    let mut all = Vec::new(alloc);
    let mut from = 0;
    for _i in 0..undo.len() {
        let Some(conn) = undo.next_open(from) else {
            return Ok(all);
        };
        for i in 0..undo.count(conn) {
            let number = number_of(undo.change(conn, i)).ok_or("another change")?;
            all.push((conn, number))?;
        }
        from = u32::from(conn) + 1;
    }
    Ok(all)
}

pub const THREE: &[(u16, i64)] = &[(7, 1), (65535, 2), (7, 3), (0, 4), (7, 5)];

#[test]
fn changes_stand_by_connection(rt: HostRuntime) -> Result<(), Fail> {
    let undo = pushed(rt.alloc(), THREE)?;
    let all = all_of(rt.alloc(), &undo)?;
    assert_eq!(rt;
        all.as_slice(),
        [(0, 4), (7, 1), (7, 3), (7, 5), (65535, 2)].as_slice()
    );
    Ok(())
}

#[test]
fn the_latest_change_is_taken_off_first(rt: HostRuntime) -> Result<(), Fail> {
    let mut undo = pushed(rt.alloc(), THREE)?;
    for want in [Some(5), Some(3), Some(1), None, None] {
        let popped = match undo.pop(7) {
            Some(change) => number_of(&change),
            None => None,
        };
        assert_eq!(rt; popped, want);
    }
    let all = all_of(rt.alloc(), &undo)?;
    assert_eq!(rt; all.as_slice(), [(0, 4), (65535, 2)].as_slice());
    Ok(())
}

#[test]
fn the_next_connection_with_changes_is_the_least(rt: HostRuntime) -> Result<(), Fail> {
    let undo = pushed(rt.alloc(), THREE)?;
    for (from, want) in [
        (0, Some(0)),
        (1, Some(7)),
        (7, Some(7)),
        (8, Some(65535)),
        (65535, Some(65535)),
        (65536, None),
        (4_294_967_295, None),
    ] {
        assert_eq!(rt; undo.next_open(from), want, "{from}");
    }
    assert_eq!(rt; undo.count(7), 3);
    assert_eq!(rt; undo.count(8), 0);
    Ok(())
}

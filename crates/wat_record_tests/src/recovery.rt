ghost use Rattle.wat_log_record.specs.Encoding.{IsWritable};

use crate::entries::{created, inserted, replaced};
use crate::shelf::Shelf;
use std::alloc::Global;
use std::test::Fail;
use wat_record::LogRecord;
use wat_recover::{apply_to, undo_on};
use wat_value::SchemaChange;

// The table t, and the row (1, 10) of connection 1, which is open.
fn add_a_row(alloc: Global, shelf: &mut Shelf) -> Result<(), Fail> {
    apply_to(alloc, shelf, &created(alloc)?)?;
    apply_to(alloc, shelf, &inserted(alloc, 1, 10)?)?;
    Ok(())
}

// Whether the record applies where that row is open.
fn try_it(alloc: Global, shelf: &mut Shelf, entry: &LogRecord) -> Result<bool, Fail>
    requires { IsWritable entry.now }
{
    add_a_row(alloc, shelf)?;
    let applied = apply_to(alloc, shelf, entry)?;
    undo_on(shelf)?;
    Ok(applied)
}

// Whether the record applies there, and how many rows there are when all that is open was undone.
fn tried(alloc: Global, entry: &LogRecord) -> Result<(bool, usize), Fail>
    requires { IsWritable entry.now }
{
    let mut shelf = Shelf::new(alloc);
    let applied = try_it(alloc, &mut shelf, entry)?;
    Ok((applied, shelf.rows()))
}

#[test]
fn what_is_committed_stays(rt: HostRuntime) -> Result<(), Fail> {
    let cases = [
        (LogRecord::Commit { conn: 1 }, 1),
        (LogRecord::Commit { conn: 2 }, 0),
        (LogRecord::Rollback { conn: 1 }, 0),
    ];
    for (entry, rows) in &cases {
        assert_eq!(rt; tried(rt.alloc(), entry)?, (true, *rows), "{entry:?}");
    }
    Ok(())
}

#[test]
fn an_undoing_goes_no_further_than_the_list(rt: HostRuntime) -> Result<(), Fail> {
    for (count, applied) in [(0, true), (1, true), (2, false)] {
        let entry = LogRecord::UndoTo { conn: 1, count };
        assert_eq!(rt; tried(rt.alloc(), &entry)?, (applied, 0), "{count}");
    }
    Ok(())
}

#[test]
fn the_schema_waits_for_changes_that_stand(rt: HostRuntime) -> Result<(), Fail> {
    let dropped = LogRecord::Schema(SchemaChange::DropTable { table: 1 });
    assert_eq!(rt; tried(rt.alloc(), &dropped)?, (false, 0));
    Ok(())
}

#[test]
fn a_key_stands_once(rt: HostRuntime) -> Result<(), Fail> {
    let again = inserted(rt.alloc(), 1, 11)?;
    assert_eq!(rt; tried(rt.alloc(), &again)?, (false, 0));
    Ok(())
}

#[test]
fn a_row_that_another_connection_has_changed_waits(rt: HostRuntime) -> Result<(), Fail> {
    let other = replaced(rt.alloc(), 1, 10, 12)?;
    assert_eq!(rt; tried(rt.alloc(), &other)?, (false, 0));
    Ok(())
}

// Puts one value in the place of another, by connection 2.
fn replace(alloc: Global, shelf: &mut Shelf, value: i64, by: i64) -> Result<bool, Fail> {
    let entry = replaced(alloc, 1, value, by)?;
    let applied = apply_to(alloc, shelf, &entry)?;
    Ok(applied)
}

// Two changes of one committed row, which are undone; whether the first value stands again.
fn undo_two(alloc: Global, shelf: &mut Shelf) -> Result<bool, Fail> {
    add_a_row(alloc, shelf)?;
    apply_to(alloc, shelf, &LogRecord::Commit { conn: 1 })?;
    replace(alloc, shelf, 10, 20)?;
    replace(alloc, shelf, 20, 30)?;
    undo_on(shelf)?;
    replace(alloc, shelf, 10, 20)
}

#[test]
fn the_last_change_is_undone_first(rt: HostRuntime) -> Result<(), Fail> {
    let mut shelf = Shelf::new(rt.alloc());
    assert!(rt; undo_two(rt.alloc(), &mut shelf)?);
    Ok(())
}

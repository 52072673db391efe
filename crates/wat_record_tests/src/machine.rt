// A machine over the tables of a database in memory.
use crate::entries::{created, inserted, replaced};
use std::alloc::Global;
use std::test::Fail;
use wat_machine::{MemoryTables, new_machine};
use wat_record::LogRecord;
use wat_recover::Machine;

// A table, a row of it and its commit, and a change of that row that stands: whether each applies.
fn changed(alloc: Global, machine: &mut Machine<MemoryTables>) -> Result<[bool; 4], Fail> {
    Ok([
        machine.apply(alloc, &created(alloc)?)?,
        machine.apply(alloc, &inserted(alloc, 1, 10)?)?,
        machine.apply(alloc, &LogRecord::Commit { conn: 1 })?,
        machine.apply(alloc, &replaced(alloc, 1, 10, 12)?)?,
    ])
}

// A row whose key stands, and one more: whether each applies.
fn inserts(alloc: Global, machine: &mut Machine<MemoryTables>) -> Result<[bool; 2], Fail> {
    Ok([
        machine.apply(alloc, &inserted(alloc, 1, 5)?)?,
        machine.apply(alloc, &inserted(alloc, 2, 20)?)?,
    ])
}

fn rows(machine: &Machine<MemoryTables>) -> usize {
    match machine.tables().tables.table("t") {
        Some(table) => table.rows().count(),
        None => 0,
    }
}

#[test]
fn a_machine_undoes_what_is_not_committed(rt: HostRuntime) -> Result<(), Fail> {
    let alloc = rt.alloc();
    let mut machine = new_machine(alloc)?;
    assert_eq!(rt; changed(alloc, &mut machine)?, [true; 4]);
    assert_eq!(rt; inserts(alloc, &mut machine)?, [false, true]);
    assert_eq!(rt; rows(&machine), 2);
    machine.undo_all()?;
    assert_eq!(rt; rows(&machine), 1);
    assert!(rt; machine.apply(alloc, &replaced(alloc, 1, 10, 12)?)?);
    Ok(())
}

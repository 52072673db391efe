//! Locks, wants and tables that the cases speak of.
use std::alloc::Global;
use wat_list::{Items, NoMemory};
use wat_locks::{Asked, Lock, LockKind, Locks, Resource, Want, Wants};
use wat_value::{Key, Place, Value};

/// Stands for the end of an index.
pub(crate) const END: i64 = 99;

/// The key of one integer.
pub(crate) fn key(alloc: Global, n: i64) -> Result<Key, NoMemory> {
    let mut key = Key::new(alloc);
    key.push(Value::Int(n))?;
    Ok(key)
}

pub(crate) fn place(alloc: Global, n: i64) -> Result<Place, NoMemory> {
    if n == END {
        return Ok(Place::End);
    }
    Ok(Place::At(key(alloc, n)?))
}

/// On row n of table 1, or on the gap before n in that index of it.
pub(crate) fn lock(alloc: Global, kind: LockKind, index: u8, n: i64) -> Result<Lock, NoMemory> {
    let resource = match kind {
        LockKind::Read | LockKind::Write => Resource::Row {
            table: 1,
            key: key(alloc, n)?,
        },
        LockKind::Phantom | LockKind::AntiPhantom => Resource::Gap {
            table: 1,
            index,
            place: place(alloc, n)?,
        },
    };
    Ok(Lock { kind, resource })
}

/// Wants of these locks on rows and on gaps of the primary key.
pub(crate) fn wants(
    alloc: Global,
    locks: &[(LockKind, i64)],
    short: Option<u32>,
) -> Result<Wants, NoMemory> {
    let mut wants = Items::new(alloc);
    for (kind, n) in locks {
        let lock = lock(alloc, *kind, 0, *n)?;
        wants.push(Want { lock, short })?;
    }
    Ok(wants)
}

/// The holder and the kind that are named, or None where all is granted.
pub(crate) fn ask(
    alloc: Global,
    locks: &mut Locks,
    conn: u16,
    wanted: &[(LockKind, i64)],
    short: Option<u32>,
) -> Result<Option<(u16, LockKind)>, NoMemory> {
    let wants = wants(alloc, wanted, short)?;
    match locks.ask(alloc, conn, &wants)? {
        Asked::Granted => Ok(None),
        Asked::Against(against) => Ok(Some((against.holder, against.lock.kind))),
    }
}

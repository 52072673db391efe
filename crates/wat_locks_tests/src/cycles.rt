//! The cycle of blockers that is named.
use crate::fixtures::{ask, wants};
use std::alloc::Global;
use std::test::Fail;
use wat_cycle::{Edges, Request, Requests, cycle};
use wat_list::{Items, NoMemory};
use wat_locks::LockKind::{Read, Write};
use wat_locks::{LockKind, Locks};

/// A connection, a kind, and a row.
type Entry = (u16, LockKind, i64);

fn locks(alloc: Global, held: &[Entry]) -> Result<Locks, NoMemory> {
    let mut locks = Locks::new(alloc);
    for (conn, kind, n) in held {
        ask(alloc, &mut locks, *conn, &[(*kind, *n)], None)?;
    }
    Ok(locks)
}

fn requests(alloc: Global, waiting: &[Entry]) -> Result<Requests, NoMemory> {
    let mut requests = Items::new(alloc);
    for (conn, kind, n) in waiting {
        let wants = wants(alloc, &[(*kind, *n)], None)?;
        requests.push(Request { conn: *conn, wants })?;
    }
    Ok(requests)
}

/// Whether the edges lead from each of these to the next and from the last to the first, each with
/// a lock of that kind.
fn lead(edges: &Edges, members: &[(u16, LockKind)]) -> bool {
    if edges.len() != members.len() {
        return false;
    }
    for (i, edge) in edges.as_slice().iter().enumerate() {
        let (from, kind) = members[i];
        let (to, _) = members[if i + 1 == members.len() { 0 } else { i + 1 }];
        if edge.from != from || edge.to != to || edge.lock.kind != kind {
            return false;
        }
    }
    true
}

/// Whether the named cycle through 1 has those members, or there is none.
fn is_named(
    alloc: Global,
    held: &[Entry],
    waiting: &[Entry],
    members: &[(u16, LockKind)],
) -> Result<bool, NoMemory> {
    let locks = locks(alloc, held)?;
    let requests = requests(alloc, waiting)?;
    match cycle(alloc, 1, &locks, &requests)? {
        None => Ok(members.is_empty()),
        Some(edges) => Ok(lead(&edges, members)),
    }
}

#[test]
fn named_cycles(rt: HostRuntime) -> Result<(), Fail> {
    let ring: [Entry; 4] = [(1, Write, 1), (2, Write, 2), (3, Write, 3), (4, Write, 4)];
    let readers: [Entry; 4] = [(1, Write, 1), (2, Read, 9), (3, Read, 9), (3, Write, 3)];
    let cases: [(&[Entry], &[Entry], &[(u16, LockKind)]); 8] = [
        (&ring, &[(1, Write, 2)], &[]),
        (&ring, &[(1, Write, 2), (2, Write, 3), (3, Write, 2)], &[]),
        (
            &ring,
            &[(1, Read, 2), (2, Read, 1)],
            &[(1, Write), (2, Write)],
        ),
        (
            &ring,
            &[(3, Write, 1), (1, Write, 2), (2, Write, 3)],
            &[(1, Write), (2, Write), (3, Write)],
        ),
        (
            &ring,
            &[(1, Write, 3), (3, Write, 2), (2, Write, 4), (4, Write, 1)],
            &[(1, Write), (3, Write), (2, Write), (4, Write)],
        ),
        (
            &readers,
            &[(3, Write, 1), (2, Write, 1), (1, Write, 9)],
            &[(1, Read), (2, Write)],
        ),
        (
            &readers,
            &[(1, Write, 9), (2, Write, 3), (3, Write, 1)],
            &[(1, Read), (3, Write)],
        ),
        (
            &readers,
            &[(1, Write, 9), (2, Write, 8), (3, Write, 1)],
            &[(1, Read), (3, Write)],
        ),
    ];
    for (held, waiting, members) in cases {
        assert!(rt;
            is_named(rt.alloc(), held, waiting, members)?,
            "{waiting:?}"
        );
    }
    Ok(())
}

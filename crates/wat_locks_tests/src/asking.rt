//! What a connection is told that asks for locks.
ghost use Rattle.std.specs.Prelude.{◌≡◌, ◌<◌};

use crate::fixtures::{END, ask, lock};
use std::alloc::Global;
use std::marker::Brand;
use std::sync::ledger::{Blank, Ledger};
use std::test::Fail;
use wat_chain::Steps;
use wat_list::NoMemory;
use wat_locks::LockKind::{AntiPhantom, Phantom, Read, Write};
use wat_locks::{LockKind, Locks};

/// Whether the connection is refused what it asks where 1 holds that.
fn is_refused(alloc: Global, held: LockKind, conn: u16, asked: LockKind) -> Result<bool, NoMemory> {
    let mut locks = Locks::new(alloc);
    ask(alloc, &mut locks, 1, &[(held, 5)], None)?;
    let found = ask(alloc, &mut locks, conn, &[(asked, 5)], None)?;
    Ok(found.is_some())
}

#[test]
fn pairs_of_kinds_on_one_resource(rt: HostRuntime) -> Result<(), Fail> {
    let cases: [(LockKind, LockKind, bool); 16] = [
        (Read, Read, false),
        (Read, Write, true),
        (Read, Phantom, false),
        (Read, AntiPhantom, false),
        (Write, Read, true),
        (Write, Write, true),
        (Write, Phantom, false),
        (Write, AntiPhantom, false),
        (Phantom, Read, false),
        (Phantom, Write, false),
        (Phantom, Phantom, false),
        (Phantom, AntiPhantom, true),
        (AntiPhantom, Read, false),
        (AntiPhantom, Write, false),
        (AntiPhantom, Phantom, true),
        (AntiPhantom, AntiPhantom, false),
    ];
    for (held, asked, refused) in cases {
        let other = is_refused(rt.alloc(), held, 2, asked)?;
        let own = is_refused(rt.alloc(), held, 1, asked)?;
        assert_eq!(rt; other, refused, "{held:?} {asked:?}");
        assert!(rt; !own, "{held:?} {asked:?}");
    }
    Ok(())
}

/// What 1 is told where 2 reads rows 5 and 6 and writes 6, 3 reads 5 and writes 7, and 4 keeps
/// the gaps before 5 and the end.
fn told(alloc: Global, wanted: &[(LockKind, i64)]) -> Result<Option<(u16, LockKind)>, NoMemory> {
    let mut locks = Locks::new(alloc);
    ask(alloc, &mut locks, 4, &[(Phantom, 5), (Phantom, END)], None)?;
    ask(alloc, &mut locks, 3, &[(Read, 5), (Write, 7)], None)?;
    ask(
        alloc,
        &mut locks,
        2,
        &[(Read, 5), (Write, 6), (Read, 6)],
        Some(1),
    )?;
    ask(alloc, &mut locks, 1, wanted, None)
}

#[test]
fn the_named_conflict(rt: HostRuntime) -> Result<(), Fail> {
    let cases: [(&[(LockKind, i64)], Option<(u16, LockKind)>); 8] = [
        (&[(Read, 5), (Write, 8)], None),
        (&[(Write, 5)], Some((2, Read))),
        (&[(Write, 6)], Some((2, Read))),
        (&[(Read, 6)], Some((2, Write))),
        (&[(Read, 5), (Write, 7), (Write, 5)], Some((3, Write))),
        (&[(Phantom, 5), (AntiPhantom, 6)], None),
        (&[(AntiPhantom, END)], Some((4, Phantom))),
        (&[(Write, 8), (AntiPhantom, 5)], Some((4, Phantom))),
    ];
    for (wanted, named) in cases {
        assert_eq!(rt; told(rt.alloc(), wanted)?, named, "{wanted:?}");
    }
    Ok(())
}

#[test]
fn a_refused_connection_gets_nothing(rt: HostRuntime) -> Result<(), Fail> {
    let mut locks = Locks::new(rt.alloc());
    ask(rt.alloc(), &mut locks, 2, &[(Write, 5)], None)?;
    ask(rt.alloc(), &mut locks, 1, &[(Read, 4), (Read, 5)], None)?;
    assert!(rt; !locks.holds(1, &lock(rt.alloc(), Read, 0, 4)?));
    assert!(rt; locks.holds(2, &lock(rt.alloc(), Write, 0, 5)?));
    Ok(())
}

/// Frees the connection's short locks of that scan, or all of them.
fn release<L: Ledger>(blank: Blank, locks: &mut Locks, conn: u16, scan: Option<u32>)
    requires name { blank.name ≡ L.name }
    requires parts { blank.parts ≡ L.parts }
    requires some { 0 < L.parts }
{
    let mut steps = Steps::<L>::start(blank);
    match scan {
        None => locks.release_all(conn, &mut steps),
        Some(scan) => locks.release_short(conn, scan, &mut steps),
    }
}

/// Whether 2 may write row 5 after a release by 1, which holds Read on it for these scans and 3
/// holds Read on row 6.
fn freed(alloc: Global, shorts: &[Option<u32>], scan: Option<u32>) -> Result<bool, NoMemory> {
    let mut locks = Locks::new(alloc);
    for short in shorts {
        ask(alloc, &mut locks, 1, &[(Read, 5)], *short)?;
    }
    ask(alloc, &mut locks, 3, &[(Read, 6)], Some(7))?;
    release::<Brand>(Blank::new(1), &mut locks, 1, scan);
    let other = ask(alloc, &mut locks, 4, &[(Write, 6)], None)?;
    let found = ask(alloc, &mut locks, 2, &[(Write, 5)], None)?;
    Ok(other == Some((3, Read)) && found.is_none())
}

#[test]
fn long_locks_beside_short_ones(rt: HostRuntime) -> Result<(), Fail> {
    let cases: [(&[Option<u32>], Option<u32>, bool); 8] = [
        (&[None], None, true),
        (&[None], Some(7), false),
        (&[Some(7)], Some(7), true),
        (&[Some(7)], Some(8), false),
        (&[Some(7), None], Some(7), false),
        (&[None, Some(7)], Some(7), false),
        (&[Some(7), Some(8)], Some(7), false),
        (&[Some(7), None, Some(8)], None, true),
    ];
    for (shorts, scan, free) in cases {
        assert_eq!(rt;
            freed(rt.alloc(), shorts, scan)?,
            free,
            "{shorts:?} {scan:?}"
        );
    }
    Ok(())
}

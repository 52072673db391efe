// Locks freed where nobody counts the steps.
ghost use Rattle.std.specs.Prelude.{◌≡◌, ◌<◌, ◌≤◌, ◌^◌, ℕ, Some};
ghost use Rattle.wat_locks.specs.Held.{Compatible, Frees};

use std::marker::Brand;
use std::sync::ledger::{Blank, Ledger};
use wat_chain::Steps;
use wat_locks::Locks;

fn free_short<L: Ledger>(blank: Blank, locks: &mut Locks, conn: u16, scan: u32)
    requires name { blank.name ≡ L.name }
    requires parts { blank.parts ≡ L.parts }
    requires some { 0 < L.parts }
    ensures frees { Frees locks.old locks.new (λ h. (h.conn ≡ conn) × (h.short ≡ Some scan)) }
    ensures compatible { Compatible locks.new }
{
    let mut steps = Steps::<L>::start(blank);
    locks.release_short(conn, scan, &mut steps);
}

fn free_each<L: Ledger>(blank: Blank, locks: &mut Locks, conn: u16)
    requires name { blank.name ≡ L.name }
    requires parts { blank.parts ≡ L.parts }
    requires some { 0 < L.parts }
    ensures frees { Frees locks.old locks.new (λ h. h.conn ≡ conn) }
    ensures compatible { Compatible locks.new }
{
    let mut steps = Steps::<L>::start(blank);
    locks.release_all(conn, &mut steps);
}

/// Frees the connection's short locks of one scan.
pub(crate) fn free_scan(locks: &mut Locks, conn: u16, scan: u32)
    ensures frees { Frees locks.old locks.new (λ h. (h.conn ≡ conn) × (h.short ≡ Some scan)) }
    ensures compatible { Compatible locks.new }
{
    free_short::<Brand>(Blank::new(1), locks, conn, scan);
}

/// Frees all locks of the connection.
pub(crate) fn free_all(locks: &mut Locks, conn: u16)
    ensures frees { Frees locks.old locks.new (λ h. h.conn ≡ conn) }
    ensures compatible { Compatible locks.new }
{
    free_each::<Brand>(Blank::new(1), locks, conn);
}

/// Frees the connection's short locks of the scans with numbers below this one.
pub(crate) fn free_below(locks: &mut Locks, conn: u16, most: u64)
    requires small { most ≤ 2 ^ 32 }
    requires compatible { Compatible locks.old }
    ensures frees { Frees locks.old locks.new (λ h. (h.conn ≡ conn) × (scan : ℕ) × (h.short ≡ Some scan) × (scan < most)) }
    ensures compatible { Compatible locks.new }
{
    for scan in 0..most {
        free_scan(locks, conn, scan as u32);
    }
}

// The numbers of scans that have short locks.
ghost use Rattle.std.specs.Prelude.{◌≡◌, ◌<◌, ◌≤◌, ◌^◌, ℕ, Some, is_some};
ghost use Rattle.std.specs.List.{list_any};
ghost use Rattle.wat_statement_locks.specs.Scans.{AreWantedBelow};

use wat_locks::Want;

/// At least this number, and above that of the scan.
fn raised(most: u64, short: Option<u32>) -> u64
    ensures above { (scan : ℕ) → short ≡ Some scan → scan < result }
    ensures more { most ≤ result }
    ensures small { most ≤ 2 ^ 32 → result ≤ 2 ^ 32 }
{
    match short {
        Some(scan) => most.max(scan as u64 + 1),
        None => most,
    }
}

/// A number above those of the scans that these wants are short for.
pub(crate) fn above(wants: &[Want]) -> u64
    ensures above { AreWantedBelow result wants.now }
    ensures small { result ≤ 2 ^ 32 }
{
    let mut most = 0;
    for want in wants {
        most = raised(most, want.short);
    }
    most
}

/// Whether one of the wants is short.
pub(crate) fn any_short(wants: &[Want]) -> bool
    ensures { result ≡ list_any (λ want. is_some want.short) wants.now }
{
    wants.iter().any(|want| want.short.is_some())
}

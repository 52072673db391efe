//! Bounds of intervals, and positions of an index.
use crate::maps::key;
use std::alloc::Global;
use std::test::Fail;
use wat_list::{Copied, NoMemory};
use wat_value::{Bound, Interval, Place};

/// Above 2, up to 4, 1 and what begins so.
fn from_2_to_4_1(alloc: Global) -> Result<Interval, NoMemory> {
    let lower = Bound::Excluding(key(alloc, &[2])?);
    let upper = Bound::Including(key(alloc, &[4, 1])?);
    Ok(Interval { lower, upper })
}

#[test]
fn an_interval_holds_the_keys_between_its_bounds(rt: HostRuntime) -> Result<(), Fail> {
    let interval = from_2_to_4_1(rt.alloc())?.copy(rt.alloc())?;
    let cases: [(&[i64], bool); 6] = [
        (&[2, 9], false),
        (&[3, 0], true),
        (&[4, 1, 7], true),
        (&[4, 2], false),
        (&[4], true),
        (&[], false),
    ];
    for (numbers, held) in cases {
        let key = key(rt.alloc(), numbers)?;
        assert_eq!(rt; interval.holds(&key), held, "{key:?}");
    }
    Ok(())
}

#[test]
fn a_lower_bound_admits_the_keys_above_it(rt: HostRuntime) -> Result<(), Fail> {
    let bound = Bound::Excluding(key(rt.alloc(), &[2])?);
    for (n, admitted) in [(1, false), (2, false), (3, true)] {
        assert_eq!(rt; bound.admits(&key(rt.alloc(), &[n, 5])?), admitted, "{n}");
    }
    assert!(rt; Bound::Free.admits(&key(rt.alloc(), &[])?));
    Ok(())
}

/// Whether the places at two keys, and the end, stand in this order.
fn ascend(alloc: Global, first: &[i64], second: &[i64]) -> Result<bool, NoMemory> {
    let first = Place::At(key(alloc, first)?);
    let second = Place::At(key(alloc, second)?);
    Ok(first < second && second < Place::End && first.copy(alloc)? == first)
}

#[test]
fn the_end_is_behind_all_keys(rt: HostRuntime) -> Result<(), Fail> {
    assert!(rt; ascend(rt.alloc(), &[1], &[1, 0])?);
    assert!(rt; ascend(rt.alloc(), &[], &[i64::MIN])?);
    assert!(rt; !ascend(rt.alloc(), &[2], &[1, 9])?);
    Ok(())
}

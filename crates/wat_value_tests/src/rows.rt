//! Rows in bytes, and the order of values.
use crate::maps::key;
use std::alloc::Global;
use std::cmp::Ordering;
use std::test::Fail;
use wat_list::{Copied, Items, NoMemory};
use wat_value::{Row, Text, Value, compare_rows, decode, encode, is_short};

/// 1, Null and 'ab'.
fn three_values(alloc: Global) -> Result<Row, NoMemory> {
    let mut row = Items::new(alloc);
    row.push(Value::Int(1))?;
    row.push(Value::Null)?;
    row.push(Value::Text(Text::of(alloc, "ab")?))?;
    Ok(row)
}

const THREE_VALUES: [u8; 17] = [0, 3, 1, 0, 0, 0, 0, 0, 0, 0, 1, 0, 2, 0, 2, 0x61, 0x62];

#[test]
fn the_bytes_of_a_row_stand_behind_what_was_there(rt: HostRuntime) -> Result<(), Fail> {
    let row = three_values(rt.alloc())?;
    let mut out = Vec::new(rt.alloc());
    out.push(7)?;
    assert!(rt; is_short(&row));
    encode(&row, &mut out)?;
    assert_eq!(rt; out[0], 7);
    assert_eq!(rt; &out[1..], THREE_VALUES.as_slice());
    Ok(())
}

/// What the bytes begin with is the row of three values in 17 bytes.
fn spell_three(alloc: Global, bytes: &[u8]) -> Result<bool, NoMemory> {
    match decode(alloc, bytes)? {
        Some((row, len)) => {
            let same = compare_rows(row.as_slice(), three_values(alloc)?.as_slice()).is_eq();
            Ok(same && len == 17)
        }
        None => Ok(false),
    }
}

#[test]
fn what_follows_a_row_is_not_looked_at(rt: HostRuntime) -> Result<(), Fail> {
    assert!(rt; spell_three(rt.alloc(), &THREE_VALUES)?);
    let mut more = THREE_VALUES.to_vec(rt.alloc())?;
    more.push(9)?;
    assert!(rt; spell_three(rt.alloc(), &more)?);
    Ok(())
}

#[test]
fn bytes_that_begin_with_no_row(rt: HostRuntime) -> Result<(), Fail> {
    let cases: [(&str, &[u8]); 9] = [
        ("nothing", &[]),
        ("half a count", &[0]),
        ("fewer values than the count", &[0, 2, 0]),
        ("an unknown tag", &[0, 1, 3]),
        ("seven bytes of an integer", &[0, 1, 1, 0, 0, 0, 0, 0, 0, 0]),
        ("half a length", &[0, 1, 2, 0]),
        ("a text longer than the rest", &[0, 1, 2, 0, 2, 0x61]),
        ("a text that is not UTF-8", &[0, 1, 2, 0, 2, 0xc3, 0x28]),
        ("a row without its last byte", &THREE_VALUES[..16]),
    ];
    for (case, bytes) in cases {
        assert!(rt; decode(rt.alloc(), bytes)?.is_none(), "{case}");
    }
    Ok(())
}

/// Null, integers and texts, the least first.
fn ascending(alloc: Global) -> Result<Row, NoMemory> {
    let mut values = Items::new(alloc);
    values.push(Value::Null)?;
    for n in [i64::MIN, -2, -1, 0, 1, 2, i64::MAX] {
        values.push(Value::Int(n))?;
    }
    for text in ["", "a", "ab", "b", "\u{e9}"] {
        values.push(Value::Text(Text::of(alloc, text)?))?;
    }
    Ok(values)
}

#[test]
fn values_in_their_order(rt: HostRuntime) -> Result<(), Fail> {
    let values = ascending(rt.alloc())?.copy(rt.alloc())?;
    for (i, value) in values.as_slice().iter().enumerate() {
        for (j, other) in values.as_slice().iter().enumerate() {
            assert_eq!(rt; value.compare(other), i.cmp(&j), "{value:?} and {other:?}");
            assert_eq!(rt; value == other, i == j);
        }
    }
    Ok(())
}

fn compare(alloc: Global, row: &[i64], other: &[i64]) -> Result<Ordering, NoMemory> {
    let row = key(alloc, row)?;
    let other = key(alloc, other)?;
    Ok(compare_rows(row.as_slice(), other.as_slice()))
}

#[test]
fn a_row_is_before_each_longer_one(rt: HostRuntime) -> Result<(), Fail> {
    assert_eq!(rt; compare(rt.alloc(), &[1, 2], &[1, 2, 0])?, Ordering::Less);
    assert_eq!(rt; compare(rt.alloc(), &[2], &[1, 2])?, Ordering::Greater);
    assert_eq!(rt; compare(rt.alloc(), &[], &[])?, Ordering::Equal);
    Ok(())
}

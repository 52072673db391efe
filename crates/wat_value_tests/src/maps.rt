//! Maps that are keyed by keys.
ghost use Rattle.std.specs.Prelude.{◌≡◌, Some, OnOk};
ghost use Rattle.std.specs.BTreeMap as tree;
ghost use Rattle.indexmap.specs.IndexMap as index;
ghost use Rattle.wat_value.specs.Order.{key_cmp, key_eq};

use indexmap::IndexMap;
use std::alloc::{AllocFailed, Global};
use std::collections::BTreeMap;
use std::test::Fail;
use wat_list::{Items, NoMemory};
use wat_value::{Key, Place, Row, Value};

/// What a map of locks is keyed by.
#[derive(Debug, Drop, PartialEq, Eq, Hash)]
enum Resource {
    Row(u32, Key),
    Gap(u32, u8, Place),
}

/// The key of these integers.
pub(crate) fn key(alloc: Global, numbers: &[i64]) -> Result<Key, NoMemory> {
    let mut key = Key::new(alloc);
    for n in numbers {
        key.push(Value::Int(*n))?;
    }
    Ok(key)
}

fn put_row(rows: &mut BTreeMap<Key, Row>, key: Key, row: Row) -> Result<(), AllocFailed<(Key, Row)>>
    ensures { OnOk result (tree.get key_cmp rows.new key ≡ Some row) }
{
    rows.insert(key, row)?;
    Ok(())
}

fn put_number(
    numbers: &mut IndexMap<Key, u32>,
    key: Key,
    n: u32,
) -> Result<(), AllocFailed<(Key, u32)>>
    ensures { OnOk result (index.get key_eq numbers.new key ≡ Some n) }
{
    numbers.insert(key, n)?;
    Ok(())
}

#[test]
fn rows_by_key_stand_in_key_order(rt: HostRuntime) -> Result<(), Fail> {
    let mut rows = BTreeMap::new(rt.alloc());
    for n in [3i64, 1, 2] {
        put_row(&mut rows, key(rt.alloc(), &[n])?, Items::new(rt.alloc()))?;
    }
    let (first, _) = rows.first_key_value().ok_or("no row")?;
    assert!(rt; *first == key(rt.alloc(), &[1])?);
    assert!(rt; rows.get(&key(rt.alloc(), &[4])?).is_none());
    Ok(())
}

#[test]
fn numbers_by_key(rt: HostRuntime) -> Result<(), Fail> {
    let mut numbers = IndexMap::new(rt.alloc());
    for n in [3u32, 1, 2, 1] {
        put_number(&mut numbers, key(rt.alloc(), &[n as i64, 7])?, n)?;
    }
    assert_eq!(rt; numbers.len(), 3);
    assert_eq!(rt; numbers.get(&key(rt.alloc(), &[2, 7])?), Some(&2));
    Ok(())
}

/// The number of a lock on a row, of one on the position of its key, and of one on the end.
fn locks(alloc: Global) -> Result<IndexMap<Resource, u32>, Fail> {
    let mut locks = IndexMap::new(alloc);
    locks.insert(Resource::Row(1, key(alloc, &[5])?), 10)?;
    locks.insert(Resource::Gap(1, 0, Place::At(key(alloc, &[5])?)), 20)?;
    locks.insert(Resource::Gap(1, 0, Place::End), 30)?;
    Ok(locks)
}

#[test]
fn locks_by_resource(rt: HostRuntime) -> Result<(), Fail> {
    let locks = locks(rt.alloc())?;
    assert_eq!(rt; locks.get(&Resource::Gap(1, 0, Place::End)), Some(&30));
    assert_eq!(rt;
        locks.get(&Resource::Row(1, key(rt.alloc(), &[5])?)),
        Some(&10)
    );
    assert!(rt;
        locks
            .get(&Resource::Row(2, key(rt.alloc(), &[5])?))
            .is_none()
    );
    Ok(())
}

// Where rows stand, in memory.
use std::alloc::Global;
use std::test::Fail;
use wat_directory::{Directory, Spot};
use wat_list::Items;
use wat_rows::RowName;
use wat_value::{Key, Value};

fn key(alloc: Global, n: i64) -> Result<Key, Fail> {
    let mut values = Items::new(alloc);
    values.push(Value::Int(n))?;
    Ok(Key::of(values))
}

fn name(alloc: Global, table: u32, n: i64) -> Result<RowName, Fail> {
    Ok(RowName {
        table,
        key: key(alloc, n)?,
    })
}

#[test]
fn rows_stand_where_they_were_put(rt: HostRuntime) -> Result<(), Fail> {
    let mut directory = Directory::new(rt.alloc());
    directory.add(3, 40, name(rt.alloc(), 1, 10)?)?;
    directory.add(3, 80, name(rt.alloc(), 2, 10)?)?;
    assert_eq!(rt;
        directory.spot(2, &key(rt.alloc(), 10)?),
        Some(Spot { page: 3, cell: 1 })
    );
    assert_eq!(rt; directory.spot(2, &key(rt.alloc(), 11)?), None);
    Ok(())
}

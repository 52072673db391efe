ghost use Rattle.std.specs.Prelude.{◌≡◌, ◌==◌, [], ◌∷◌, ◌++◌, IfOk, OnOk};
ghost use Rattle.std.specs.List.{list_any};
ghost use Rattle.wat_value.specs.Fits.{value_in};
ghost use Rattle.wat_written.specs.Written.{is_key, name_at, names_at};

use std::alloc::Global;
use wat_ast::{Name, Names};
use wat_list::{Copied, Items, NoMemory};
use wat_value::{Row, TableDef, Value};

/// The name of the column with the number, counted from 0.
pub(crate) fn name_at(
    alloc: Global,
    def: &TableDef,
    number: usize,
) -> Result<Option<Name>, NoMemory>
    ensures { IfOk result (λ name. name ≡ name_at def.now number) }
{
    match def.columns.as_slice().get(number) {
        Some(column) => {
            let name = column.name.copy(alloc)?;
            Ok(Some(name))
        }
        None => Ok(None),
    }
}

fn add_name(alloc: Global, def: &TableDef, number: u8, names: &mut Names) -> Result<(), NoMemory>
    ensures { OnOk result (names.new ≡ names.old ++ names_at def.now (number ∷ [])) }
{
    match name_at(alloc, def, number as usize)? {
        Some(name) => names.push(name),
        None => Ok(()),
    }
}

/// The names of the columns with the numbers.
pub(crate) fn names_at(alloc: Global, def: &TableDef, numbers: &[u8]) -> Result<Names, NoMemory>
    ensures { IfOk result (λ names. names ≡ names_at def.now numbers.now) }
{
    let mut names = Items::new(alloc);
    for number in numbers {
        add_name(alloc, def, *number, &mut names)?;
    }
    Ok(names)
}

fn has_number(numbers: &[u8], number: usize) -> bool
    ensures { result ≡ list_any (λ key. key == number) numbers.now }
{
    for key in numbers {
        if *key as usize == number {
            return true;
        }
    }
    false
}

/// Whether the column with the number is one of the primary key.
pub(crate) fn is_key(def: &TableDef, number: usize) -> bool
    ensures { result ≡ is_key def.now number }
{
    has_number(def.key.as_slice(), number)
}

/// The value of the column with the number, and Null past the last one.
pub(crate) fn value_in(alloc: Global, row: &Row, number: usize) -> Result<Value, NoMemory>
    ensures { IfOk result (λ value. value ≡ value_in row.now number) }
{
    match row.as_slice().get(number) {
        Some(value) => value.copy(alloc),
        None => Ok(Value::Null),
    }
}

ghost use Rattle.std.specs.Prelude.{◌≡◌, map, position, slice_index_or, unwrap_or, IfOk};
ghost use Rattle.std.specs.Option.{option_map};
ghost use Rattle.std.specs.Str.{bytes_eq};
ghost use Rattle.wat_meaning.specs.Meaning.{given_columns, given_row};

use std::alloc::Global;
use wat_ast::{Name, Names};
use wat_list::{Copied, Items, NoMemory};
use wat_value::{Column, Row, TableDef, Value};

fn place_among(names: &[Name], name: &str) -> Option<usize>
    ensures { result ≡ position (bytes_eq name.now) names.now }
{
    names.iter().position(|other| name == other.as_str())
}

fn place_of(columns: &[Column], name: &str) -> Option<usize>
    ensures { result ≡ position (λ column. bytes_eq name.now column.name) columns.now }
{
    columns
        .iter()
        .position(|column| name == column.name.as_str())
}

// Which of the values that INSERT lists is the column's.
fn place_given(def: &TableDef, names: &Option<Names>, column: &Column) -> Option<usize>
    ensures { result ≡ position (bytes_eq column.now.name) (given_columns def.now names.now) }
{
    match names {
        Some(names) => place_among(names.as_slice(), column.name.as_str()),
        None => place_of(def.columns.as_slice(), column.name.as_str()),
    }
}

fn value_given(alloc: Global, values: &[Value], place: Option<usize>) -> Result<Value, NoMemory>
    ensures { IfOk result (λ value. value ≡ unwrap_or (option_map (λ i. slice_index_or values.now i Value.Null) place) Value.Null) }
{
    let Some(i) = place else {
        return Ok(Value::Null);
    };
    match values.get(i) {
        Some(value) => value.copy(alloc),
        None => Ok(Value::Null),
    }
}

fn given_row(
    alloc: Global,
    def: &TableDef,
    names: &Option<Names>,
    values: &Row,
) -> Result<Row, NoMemory>
    ensures { IfOk result (λ row. row ≡ given_row def.now names.now values.now) }
{
    let mut row = Items::new(alloc);
    for column in def.columns.as_slice() {
        let place = place_given(def, names, column);
        row.push(value_given(alloc, values.as_slice(), place)?)?;
    }
    Ok(row)
}

/// The rows that INSERT makes of lists of values, in their order: of each column the value that is
/// listed for it, and Null where it isn't named.
pub fn given_rows(
    alloc: Global,
    def: &TableDef,
    names: &Option<Names>,
    values: &[Row],
) -> Result<Vec<Row>, NoMemory>
    ensures { IfOk result (λ rows. rows.items ≡ map (given_row def.now names.now) values.now) }
{
    let mut rows = Vec::new(alloc);
    for listed in values {
        rows.push(given_row(alloc, def, names, listed)?)?;
    }
    Ok(rows)
}

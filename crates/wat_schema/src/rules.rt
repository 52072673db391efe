//! The rules that a table's and an index's definition keep.
ghost use Rattle.std.specs.Prelude.{◌≡◌, ◌+◌, ◌≤◌, ◌==◌, nat_lt, if◌then◌else◌, [], ◌∷◌, false, is_some, length, map, position, slice_get, None, Some, IfOk};
ghost use Rattle.std.specs.List.{list_any};
ghost use Rattle.std.specs.Str.{bytes_eq};
ghost use Rattle.wat_schema.specs.Catalog.{repeats};
ghost use Rattle.wat_value.specs.Widths.{width, width_at, width_of, widths};
ghost use Rattle.wat_schema.specs.Definitions.{bad_definition, is_bad_key, is_bad_length, is_definition, lacks_column, may_be_null, number_named, same_name, takes_null};
ghost use Rattle.wat_schema.specs.Making.{in_table_order};

use crate::name_set::NameSet;
use indexmap::IndexSet;
use std::alloc::Global;
use wat_list::{Items, NoMemory};
use wat_value::{Column, IndexDef, Kind, Name, TableDef};

fn width(kind: Kind) -> u32
    ensures exact { result ≡ width kind }
    ensures bound { result ≤ 65538 }
{
    match kind {
        Kind::Integer => 9,
        Kind::Char(n) | Kind::Varchar(n) => 3 + n as u32,
    }
}

fn width_of(columns: &[Column], i: usize) -> u32
    ensures exact { result ≡ width_of (slice_get columns.now i) }
    ensures bound { result ≤ 65538 }
{
    match columns.get(i) {
        Some(column) => width(column.kind),
        None => 0,
    }
}

/// The width of all columns.
fn widths(columns: &[Column]) -> u32
    requires { length columns.now ≤ 64 }
    ensures { result ≡ widths columns.now }
{
    let mut total = 0;
    for column in columns {
        total += width(column.kind);
    }
    total
}

/// The width of the columns with these numbers.
pub fn width_at(columns: &[Column], numbers: &[u8]) -> u32
    requires { length numbers.now ≤ 16 }
    ensures exact { result ≡ width_at columns.now numbers.now }
    ensures bound { result ≤ 1048608 }
{
    let mut total = 0;
    for i in numbers {
        total += width_of(columns, *i as usize);
    }
    total
}

/// Whether an item is the same as a later one.
pub fn repeats<T: Eq>(items: &[T]) -> bool
    ensures { result ≡ repeats T.eq items.now }
{
    let mut rest = items;
    while let Some((first, more)) = rest.split_first() {
        if more.contains(first) {
            return true;
        }
        rest = more;
    }
    false
}

fn takes_null(columns: &[Column], i: usize) -> bool
    ensures { result ≡ takes_null (slice_get columns.now i) }
{
    match columns.get(i) {
        Some(column) => column.nullable,
        None => false,
    }
}

/// Whether a column with one of these numbers may be NULL.
pub fn may_be_null(columns: &[Column], numbers: &[u8]) -> bool
    ensures { result ≡ may_be_null columns.now numbers.now }
{
    numbers.iter().any(|i| takes_null(columns, *i as usize))
}

/// Whether the length of a column's texts is out of range.
fn is_bad_length(kind: Kind) -> bool
    ensures { result ≡ is_bad_length kind }
{
    match kind {
        Kind::Integer => false,
        Kind::Char(n) | Kind::Varchar(n) => n < 1 || n > 2000,
    }
}

/// Whether a row is wider than 3500.
fn is_wide(columns: &[Column]) -> bool
    requires { length columns.now ≤ 64 }
    ensures { result ≡ nat_lt 3500 (2 + widths columns.now) }
{
    widths(columns) > 3498
}

fn has_name(columns: &[Column], name: &str) -> bool
    ensures { result ≡ list_any (λ column. bytes_eq column.name name.now) columns.now }
{
    columns.iter().any(|column| column.name.as_str() == name)
}

/// Whether two columns have one name.
fn repeats_name(columns: &[Column]) -> bool
    ensures { result ≡ repeats same_name columns.now }
{
    let mut rest = columns;
    while let Some((first, more)) = rest.split_first() {
        if has_name(more, first.name.as_str()) {
            return true;
        }
        rest = more;
    }
    false
}

fn has_bad_length(columns: &[Column]) -> bool
    ensures { result ≡ list_any (λ column. is_bad_length column.kind) columns.now }
{
    columns.iter().any(|column| is_bad_length(column.kind))
}

/// The names of the columns in their order, or None where two columns have one name.
fn names_of(alloc: Global, columns: &[Column]) -> Result<Option<NameSet>, NoMemory>
    ensures { IfOk result (λ names. names ≡ (if repeats same_name columns.now then None else Some (map (λ column. column.name) columns.now))) }
{
    let mut names = NameSet::new(alloc);
    for column in columns {
        let fresh = names.add(column.name.as_str())?;
        if !fresh {
            return Ok(None);
        }
    }
    Ok(Some(names))
}

/// The place of the first column with the name. `called` has the names of the columns.
fn position_named(columns: &[Column], called: &NameSet, name: &str) -> Option<usize>
    requires { called.now ≡ map (λ column. column.name) columns.now }
    ensures { result ≡ position (λ column. bytes_eq name.now column.name) columns.now }
{
    called.position(name)
}

/// The number of the first column with the name, or the number of columns where none has it.
fn number_named(columns: &[Column], called: &NameSet, name: &str) -> usize
    requires { called.now ≡ map (λ column. column.name) columns.now }
    ensures { result ≡ number_named columns.now name.now }
{
    position_named(columns, called, name).unwrap_or(columns.len())
}

fn numbers_named(
    alloc: Global,
    columns: &[Column],
    called: &NameSet,
    names: &[Name],
) -> Result<Vec<usize>, NoMemory>
    requires { called.now ≡ map (λ column. column.name) columns.now }
    ensures { IfOk result (λ numbers. numbers.items ≡ map (number_named columns.now) names.now) }
{
    let mut numbers = Vec::new(alloc);
    for name in names {
        numbers.push(number_named(columns, called, name.as_str()))?;
    }
    Ok(numbers)
}

/// Whether a number comes twice, where there may be many.
fn repeats_number(alloc: Global, numbers: &[usize]) -> Result<bool, NoMemory>
    ensures { IfOk result (λ again. again ≡ repeats ◌==◌ numbers.now) }
{
    let mut before = IndexSet::new(alloc);
    for number in numbers {
        let fresh = before.insert(*number)?;
        if !fresh {
            return Ok(true);
        }
    }
    Ok(false)
}

/// Like `width_at`, of wider numbers.
fn key_width(columns: &[Column], key: &[usize]) -> u32
    requires { length key.now ≤ 16 }
    ensures { result ≡ width_at columns.now key.now }
{
    let mut total = 0;
    for i in key {
        total += width_of(columns, *i);
    }
    total
}

fn is_beyond(columns: &[Column], key: &[usize]) -> bool
    ensures { result ≡ lacks_column columns.now key.now }
{
    key.iter().any(|i| columns.len() <= *i)
}

fn is_bad_key(alloc: Global, columns: &[Column], key: &[usize]) -> Result<bool, NoMemory>
    ensures { IfOk result (λ bad. bad ≡ is_bad_key columns.now key.now) }
{
    let again = repeats_number(alloc, key)?;
    Ok(again || is_beyond(columns, key))
}

/// The smallest broken rule of a table with these columns, no two of one name, and with this one
/// primary key, whose columns are there, each once.
fn bad_size(is_full: bool, columns: &[Column], key: &[usize]) -> Option<u8>
    requires distinct { repeats same_name columns.now ≡ false }
    requires some { (length key.now == 0) ≡ false }
    requires right { is_bad_key columns.now key.now ≡ false }
    ensures { result ≡ bad_definition is_full columns.now (key.now ∷ []) }
{
    if columns.len() > 64 {
        return Some(4);
    }
    if key.len() > 16 {
        return Some(4);
    }
    if has_bad_length(columns) {
        return Some(5);
    }
    if is_wide(columns) {
        return Some(6);
    }
    if key_width(columns, key) > 400 {
        return Some(7);
    }
    if is_full { Some(8) } else { None }
}

/// The smallest broken rule of a table with these columns, no two of one name, and with this one
/// primary key, by the numbers of its columns.
fn bad_key(
    alloc: Global,
    is_full: bool,
    columns: &[Column],
    key: &[usize],
) -> Result<Option<u8>, NoMemory>
    requires { repeats same_name columns.now ≡ false }
    ensures { IfOk result (λ rule. rule ≡ bad_definition is_full columns.now (key.now ∷ [])) }
{
    if key.is_empty() {
        return Ok(Some(2));
    }
    if is_bad_key(alloc, columns, key)? {
        return Ok(Some(3));
    }
    Ok(bad_size(is_full, columns, key))
}

/// Like `bad_key`, of a key by the names of its columns. `called` has those of all columns.
fn bad_named_key(
    alloc: Global,
    is_full: bool,
    columns: &[Column],
    called: &NameSet,
    key: &[Name],
) -> Result<Option<u8>, NoMemory>
    requires distinct { repeats same_name columns.now ≡ false }
    requires called { called.now ≡ map (λ column. column.name) columns.now }
    ensures { IfOk result (λ rule. rule ≡ bad_definition is_full columns.now (map (number_named columns.now) key.now ∷ [])) }
{
    let numbers = numbers_named(alloc, columns, called, key)?;
    let rule = bad_key(alloc, is_full, columns, numbers.as_slice())?;
    Ok(rule)
}

/// The smallest broken rule of a table with these columns and these primary keys. `is_full` says
/// that no more tables may be made.
pub fn bad_table(
    alloc: Global,
    is_full: bool,
    columns: &[Column],
    keys: &[Items<Name>],
) -> Result<Option<u8>, NoMemory>
    ensures { IfOk result (λ rule. rule ≡ bad_definition is_full columns.now (map (map (number_named columns.now)) keys.now)) }
{
    let Some(called) = names_of(alloc, columns)? else {
        return Ok(Some(1));
    };
    match keys {
        [key] => {
            let rule = bad_named_key(alloc, is_full, columns, &called, key.as_slice())?;
            Ok(rule)
        }
        _ => Ok(Some(2)),
    }
}

fn lacks_column(columns: &[Column], numbers: &[u8]) -> bool
    ensures { result ≡ lacks_column columns.now numbers.now }
{
    numbers.iter().any(|i| columns.len() <= *i as usize)
}

/// Whether a number comes twice, or is that of no column.
pub fn are_bad_columns(columns: &[Column], numbers: &[u8]) -> bool
    ensures { result ≡ is_bad_key columns.now numbers.now }
{
    repeats(numbers) || lacks_column(columns, numbers)
}

/// Whether a rule is broken by a table with these columns and this primary key.
fn breaks_a_rule(is_full: bool, columns: &[Column], key: &[u8]) -> bool
    ensures { result ≡ is_some (bad_definition is_full columns.now (key.now ∷ [])) }
{
    if columns.len() > 64 {
        return true;
    }
    if key.len() > 16 {
        return true;
    }
    if repeats_name(columns) {
        return true;
    }
    if key.is_empty() {
        return true;
    }
    if are_bad_columns(columns, key) {
        return true;
    }
    if has_bad_length(columns) {
        return true;
    }
    if is_wide(columns) {
        return true;
    }
    if width_at(columns, key) > 400 {
        return true;
    }
    is_full
}

/// Whether a table may be defined so, where its number and its name are right.
pub fn is_definition(is_full: bool, def: &TableDef) -> bool
    ensures { result ≡ is_definition is_full def.now }
{
    let columns = def.columns.as_slice();
    let key = def.key.as_slice();
    !may_be_null(columns, key) && !breaks_a_rule(is_full, columns, key)
}

/// Whether no index comes before one of a lower table.
pub fn in_table_order(indexes: &[IndexDef]) -> bool
    ensures { result ≡ in_table_order 0 indexes.now }
{
    let mut rest = indexes;
    let mut low = 0;
    while let Some((first, more)) = rest.split_first() {
        if first.table < low {
            return false;
        }
        low = first.table;
        rest = more;
    }
    true
}

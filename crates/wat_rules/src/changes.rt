ghost use Rattle.std.specs.Prelude.{◌≡◌, ◌<◌, ◌≤◌, ◌++◌, true, length, map, option_to_list, IfOk, IfSome, OnOk};
ghost use Rattle.std.specs.List.{filter_map, flat_map, list_any, position};
ghost use Rattle.std.specs.Option.{option_map};
ghost use Rattle.std.specs.Str.{bytes_eq};
ghost use Rattle.wat_rules.specs.Changes.{length_of, kind_of, column_of, key_of, keys_of, numbers_named, with_key, made_table, index_change, change_of, IsAllowed};
ghost use Rattle.wat_schema.specs.Catalog.{column_at, table_named};
ghost use Rattle.wat_schema.specs.Definitions.{number_named, allows};

use std::alloc::Global;
use wat_ast::{Element, Name, Names, Statement, TypeName};
use wat_list::{Copied, Items, NoMemory};
use wat_schema::Schema;
use wat_value::{Column, Columns, IndexDef, Kind, Ordinals, SchemaChange, TableDef};

fn length_of(n: i64) -> u16
    ensures { result ≡ length_of n }
{
    if n >= 0 && n < 65536 { n as u16 } else { 0 }
}

fn kind_of(name: TypeName) -> Kind
    ensures { result ≡ kind_of name }
{
    match name {
        TypeName::Integer => Kind::Integer,
        TypeName::Char(n) => Kind::Char(length_of(n)),
        TypeName::Varchar(n) => Kind::Varchar(length_of(n)),
    }
}

fn add_column(alloc: Global, element: &Element, columns: &mut Columns) -> Result<(), NoMemory>
    ensures { OnOk result (columns.new ≡ columns.old ++ option_to_list (column_of element.now)) }
{
    match element {
        Element::Column {
            name,
            kind,
            nullable,
            ..
        } => {
            let name = name.copy(alloc)?;
            let kind = kind_of(*kind);
            let nullable = *nullable;
            columns.push(Column {
                name,
                kind,
                nullable,
            })
        }
        Element::Key(_) => Ok(()),
    }
}

/// The columns that the elements of CREATE TABLE write.
pub fn columns_of_elements(alloc: Global, elements: &[Element]) -> Result<Columns, NoMemory>
    ensures { IfOk result (λ columns. columns ≡ filter_map column_of elements.now) }
{
    let mut columns = Items::new(alloc);
    for element in elements {
        add_column(alloc, element, &mut columns)?;
    }
    Ok(columns)
}

fn add_key(alloc: Global, element: &Element, keys: &mut Items<Names>) -> Result<(), NoMemory>
    ensures { OnOk result (keys.new ≡ keys.old ++ option_to_list (key_of element.now)) }
{
    match element {
        Element::Column { name, key, .. } => {
            if *key {
                let mut names = Items::new(alloc);
                names.push(name.copy(alloc)?)?;
                keys.push(names)
            } else {
                Ok(())
            }
        }
        Element::Key(names) => keys.push(names.copy(alloc)?),
    }
}

/// The primary keys that the elements of CREATE TABLE write.
pub fn keys_of_elements(alloc: Global, elements: &[Element]) -> Result<Items<Names>, NoMemory>
    ensures { IfOk result (λ keys. keys ≡ keys_of elements.now) }
{
    let mut keys = Items::new(alloc);
    for element in elements {
        add_key(alloc, element, &mut keys)?;
    }
    Ok(keys)
}

fn add_number(
    schema: &Schema,
    table: u32,
    name: &Name,
    numbers: &mut Ordinals,
) -> Result<(), NoMemory>
    ensures { OnOk result (numbers.new ≡ numbers.old ++ option_to_list (column_at schema.now table name.now)) }
{
    match schema.column(table, name.as_str()) {
        Some(number) => numbers.push(number),
        None => Ok(()),
    }
}

/// The numbers of these columns of a table, without names that it doesn't have.
pub fn numbers_named(
    alloc: Global,
    schema: &Schema,
    table: u32,
    names: &[Name],
) -> Result<Ordinals, NoMemory>
    ensures { IfOk result (λ numbers. numbers ≡ numbers_named schema.now table names.now) }
{
    let mut numbers = Items::new(alloc);
    for name in names {
        add_number(schema, table, name, &mut numbers)?;
    }
    Ok(numbers)
}

fn is_named(names: &[Name], name: &Name) -> bool
    ensures { result ≡ list_any (λ other. bytes_eq other name.now) names.now }
{
    names.iter().any(|other| other.as_str() == name.as_str())
}

#[tactic(auto, unfolding(crate::specs::Changes::with_key))]
fn with_key(alloc: Global, key: &[Name], column: &Column) -> Result<Column, NoMemory>
    ensures { IfOk result (λ made. made ≡ with_key key.now column.now) }
{
    let nullable = column.nullable && !is_named(key, &column.name);
    let name = column.name.copy(alloc)?;
    let kind = column.kind;
    Ok(Column {
        name,
        kind,
        nullable,
    })
}

fn columns_with_key(alloc: Global, key: &[Name], columns: &[Column]) -> Result<Columns, NoMemory>
    ensures { IfOk result (λ made. made ≡ map (with_key key.now) columns.now) }
{
    let mut made = Items::new(alloc);
    for column in columns {
        made.push(with_key(alloc, key, column)?)?;
    }
    Ok(made)
}

fn joined_keys(alloc: Global, keys: &[Names]) -> Result<Names, NoMemory>
    ensures { IfOk result (λ key. key ≡ flat_map (λ key. key) keys.now) }
{
    let mut all = Items::new(alloc);
    for key in keys {
        all.append(key.copy(alloc)?)?;
    }
    Ok(all)
}

fn position_named(columns: &[Column], name: &Name) -> Option<usize>
    ensures exact { result ≡ position (λ column. bytes_eq name.now column.name) columns.now }
    ensures bound { IfSome result (λ i. i < length columns.now) }
{
    columns
        .iter()
        .position(|column| name.as_str() == column.name.as_str())
}

// A table that is allowed has no more than 64 columns.
fn number_named(columns: &[Column], name: &Name) -> u8
    requires { length columns.now ≤ 64 }
    ensures { result ≡ number_named columns.now name.now }
{
    match position_named(columns, name) {
        Some(position) => position as u8,
        None => columns.len() as u8,
    }
}

fn key_ordinals(alloc: Global, columns: &[Column], key: &[Name]) -> Result<Ordinals, NoMemory>
    requires { length columns.now ≤ 64 }
    ensures { IfOk result (λ ordinals. ordinals ≡ map (number_named columns.now) key.now) }
{
    let mut ordinals = Items::new(alloc);
    for name in key {
        ordinals.push(number_named(columns, name))?;
    }
    Ok(ordinals)
}

fn made_table(
    alloc: Global,
    number: u32,
    name: &Name,
    elements: &[Element],
) -> Result<TableDef, NoMemory>
    requires { length (filter_map column_of elements.now) ≤ 64 }
    ensures { IfOk result (λ def. def ≡ made_table number name.now (filter_map column_of elements.now) (flat_map (λ key. key) (keys_of elements.now))) }
{
    let columns = columns_of_elements(alloc, elements)?;
    let keys = keys_of_elements(alloc, elements)?;
    let names = joined_keys(alloc, keys.as_slice())?;
    let name = name.copy(alloc)?;
    let key = key_ordinals(alloc, columns.as_slice(), names.as_slice())?;
    let columns = columns_with_key(alloc, names.as_slice(), columns.as_slice())?;
    Ok(TableDef {
        number,
        name,
        columns,
        key,
    })
}

fn drop_change(schema: &Schema, name: &Name) -> Option<SchemaChange>
    ensures { result ≡ option_map SchemaChange.DropTable (table_named schema.now name.now) }
{
    match schema.table(name.as_str()) {
        Some(table) => Some(SchemaChange::DropTable { table }),
        None => None,
    }
}

fn index_change(
    alloc: Global,
    schema: &Schema,
    name: &Name,
    table: &Name,
    columns: &[Name],
) -> Result<Option<SchemaChange>, NoMemory>
    ensures { IfOk result (λ change. change ≡ index_change schema.now name.now table.now columns.now) }
{
    let Some(table) = schema.table(table.as_str()) else {
        return Ok(None);
    };
    let Some(number) = schema.next_index(table) else {
        return Ok(None);
    };
    let name = name.copy(alloc)?;
    let columns = numbers_named(alloc, schema, table, columns)?;
    Ok(Some(SchemaChange::CreateIndex(IndexDef {
        number,
        table,
        name,
        columns,
    })))
}

#[tactic(auto, using(crate::proofs::AllowedLemmas::few_columns))]
fn change(
    alloc: Global,
    statement: &Statement,
    schema: &Schema,
) -> Result<Option<SchemaChange>, NoMemory>
    requires { IsAllowed schema.now statement.now }
    ensures { IfOk result (λ change. change ≡ change_of schema.now statement.now) }
{
    match statement {
        Statement::CreateTable { name, elements } => {
            let def = made_table(alloc, schema.next(), name, elements.as_slice())?;
            Ok(Some(SchemaChange::CreateTable(def)))
        }
        Statement::CreateIndex {
            name,
            table,
            columns,
        } => index_change(alloc, schema, name, table, columns.as_slice()),
        Statement::DropTable { name } => Ok(drop_change(schema, name)),
        _ => Ok(None),
    }
}

/// The schema change of a CREATE or DROP that the schema allows, as it does of one that `check` lets
/// through.
pub fn change_of(
    alloc: Global,
    statement: &Statement,
    schema: &Schema,
) -> Result<SchemaChange, NoMemory>
    requires { IsAllowed schema.now statement.now }
    ensures change { IfOk result (λ change. change_of schema.now statement.now ≡ Some change) }
    ensures allowed { IfOk result (λ change. allows change schema.now ≡ true) }
{
    match change(alloc, statement, schema)? {
        Some(change) => Ok(change),
        None => unreachable!(),
    }
}

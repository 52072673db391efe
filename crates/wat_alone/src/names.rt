ghost use Rattle.std.specs.Prelude.{◌≡◌, ◌==◌, [], map, unwrap_or, IfOk, OnOk};
ghost use Rattle.std.specs.List.{filter, fold, list_any};
ghost use Rattle.wat_value.specs.declared.definition.IndexDef.{IndexDef as Index};
ghost use Rattle.wat_value.specs.declared.change.Act.TheVariants.{OnSchema};
ghost use Rattle.wat_value.specs.declared.change.SchemaChange.TheVariants.{CreateIndex};
ghost use Rattle.wat_history.specs.Naming as spec;
ghost use Rattle.wat_history.specs.Naming.{after_act, name_of};
ghost use Rattle.wat_alone.specs.Committing.{is_of_schema};
ghost use Rattle.wat_alone.specs.Names.{named_by};

use std::alloc::Global;
use wat_conn::{TableName, TableNames};
use wat_list::{Copied, Items, NoMemory};
use wat_tables::Tables;
use wat_value::{Act, IndexDef, Name, SchemaChange, TableDef};

fn new_name(alloc: Global, def: &TableDef) -> Result<TableName, NoMemory>
    ensures { IfOk result (λ name. name ≡ name_of def.now []) }
{
    Ok(TableName {
        number: def.number,
        name: def.name.copy(alloc)?,
        indexes: Items::new(alloc),
    })
}

/// The name with that of the index, where it is its table's.
fn with_index(alloc: Global, index: &IndexDef, name: &TableName) -> Result<TableName, NoMemory>
    ensures { IfOk result (λ with_it. with_it ≡ spec.with_index index.now name.now) }
{
    let mut with_it = name.copy(alloc)?;
    if index.table == name.number {
        with_it.indexes.push(index.name.copy(alloc)?)?;
    }
    Ok(with_it)
}

fn name_index(alloc: Global, names: &mut TableNames, index: &IndexDef) -> Result<(), NoMemory>
    ensures { OnOk result (names.new ≡ after_act names.old (OnSchema (CreateIndex index.now))) }
{
    let mut all = Items::new(alloc);
    for name in names.as_slice() {
        all.push(with_index(alloc, index, name)?)?;
    }
    *names = all;
    Ok(())
}

fn name_act(alloc: Global, names: &mut TableNames, act: &Act) -> Result<(), NoMemory>
    ensures { OnOk result (names.new ≡ after_act names.old act.now) }
{
    match act {
        Act::OnSchema(SchemaChange::CreateTable(def)) => names.push(new_name(alloc, def)?),
        Act::OnSchema(SchemaChange::CreateIndex(index)) => name_index(alloc, names, index),
        Act::OnSchema(SchemaChange::DropTable { .. }) => Ok(()),
        Act::OnRow(_) => Ok(()),
    }
}

/// Adds the names of the tables and indexes that the acts create. A table that they drop keeps its name.
fn name_changes(alloc: Global, names: &mut TableNames, acts: &[Act]) -> Result<(), NoMemory>
    ensures { OnOk result (names.new ≡ fold after_act names.old acts.now) }
{
    for act in acts {
        name_act(alloc, names, act)?;
    }
    Ok(())
}

/// Whether an act changes the schema.
fn alters(acts: &[Act]) -> bool
    ensures { result ≡ list_any is_of_schema acts.now }
{
    acts.iter().any(|act| matches!(act, Act::OnSchema(_)))
}

/// The names after the acts, with those of the tables and indexes that they create; `None` where they are as they were.
#[tactic(auto, using(crate::proofs::NamesLemmas::names_stay))]
pub fn names_after(
    alloc: Global,
    names: &TableNames,
    acts: &[Act],
) -> Result<Option<TableNames>, NoMemory>
    ensures { IfOk result (λ after. unwrap_or after names.now ≡ fold after_act names.now acts.now) }
{
    if !alters(acts) {
        return Ok(None);
    }
    let mut after = names.copy(alloc)?;
    name_changes(alloc, &mut after, acts)?;
    Ok(Some(after))
}

/// The names of the table's indexes.
fn own_indexes(alloc: Global, indexes: &[IndexDef], table: u32) -> Result<Items<Name>, NoMemory>
    ensures { IfOk result (λ names. names ≡ map (λ (index : Index). index.name) (filter (λ (index : Index). table == index.table) indexes.now)) }
{
    let mut names = Items::new(alloc);
    for index in indexes {
        if table == index.table {
            names.push(index.name.copy(alloc)?)?;
        }
    }
    Ok(names)
}

/// The names of the tables, with those of their indexes among these.
fn names_among(
    alloc: Global,
    defs: &[TableDef],
    indexes: &[IndexDef],
) -> Result<TableNames, NoMemory>
    ensures { IfOk result (λ names. names ≡ map (named_by indexes.now) defs.now) }
{
    let mut names = Items::new(alloc);
    for def in defs {
        let mut name = new_name(alloc, def)?;
        name.indexes = own_indexes(alloc, indexes, def.number)?;
        names.push(name)?;
    }
    Ok(names)
}

/// The names of the tables and their indexes.
#[tactic(auto, using(crate::proofs::NamesLemmas::all_named))]
pub fn names_of(alloc: Global, tables: &Tables) -> Result<TableNames, NoMemory>
    ensures { IfOk result (λ names. names ≡ spec.names_of tables.now []) }
{
    tables.tables_law();
    let defs = tables.schema().defs()?;
    let indexes = tables.schema().indexes()?;
    names_among(alloc, defs.as_slice(), indexes.as_slice())
}

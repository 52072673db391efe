ghost use Rattle.std.specs.Prelude.{◌≡◌, ◌++◌, IfOk, OnOk};
ghost use Rattle.std.specs.List.{flat_map};
ghost use Rattle.wat_schema.specs.Tables.{catalog_of, rows_or_none};
ghost use Rattle.wat_meaning.specs.Meaning.{table_called};
ghost use Rattle.wat_script_texts.specs.Texts.{script_text};
ghost use Rattle.wat_dump.specs.Dump.{commit_of, dump_text};
ghost use Rattle.wat_dump.specs.Dumping.{row_statements, statements_called};

use crate::writing::{push_indexes, push_rows, push_table};
use std::alloc::Global;
use wat_list::NoMemory;
use wat_tables::Tables;
use wat_value::{IndexDef, TableDef};

/// Adds the rows of the table with the name of the definition.
fn push_rows_called(
    alloc: Global,
    tables: &Tables,
    def: &TableDef,
    out: &mut Vec<u8>,
) -> Result<(), NoMemory>
    ensures { OnOk result (out.new.items ≡ out.old.items ++ script_text (row_statements (catalog_of tables.now) def.now (rows_or_none (table_called tables.now def.now.name)) ++ commit_of (rows_or_none (table_called tables.now def.now.name)))) }
{
    match tables.table(def.name.as_str()) {
        Some(table) => push_rows(alloc, tables.schema(), def, table, out),
        None => Ok(()),
    }
}

/// Adds the statements that make the table with the definition.
fn push_statements(
    alloc: Global,
    tables: &Tables,
    indexes: &[IndexDef],
    def: &TableDef,
    out: &mut Vec<u8>,
) -> Result<(), NoMemory>
    ensures { OnOk result (out.new.items ≡ out.old.items ++ script_text (statements_called tables.now indexes.now def.now)) }
{
    let schema = tables.schema();
    push_table(alloc, schema, def, out)?;
    push_indexes(alloc, schema, def, indexes, out)?;
    push_rows_called(alloc, tables, def, out)?;
    Ok(())
}

/// Adds the statements that make the tables with these definitions.
fn push_tables(
    alloc: Global,
    tables: &Tables,
    indexes: &[IndexDef],
    defs: &[TableDef],
    out: &mut Vec<u8>,
) -> Result<(), NoMemory>
    ensures { OnOk result (out.new.items ≡ out.old.items ++ script_text (flat_map (statements_called tables.now indexes.now) defs.now)) }
{
    for def in defs {
        push_statements(alloc, tables, indexes, def, out)?;
    }
    Ok(())
}

/// The tables as SQL, a statement on each line: for each table by number CREATE TABLE, CREATE INDEX
/// for its indexes by number, INSERT for its rows in key order, and COMMIT where it has rows.
pub fn dump(alloc: Global, tables: &Tables) -> Result<Vec<u8>, NoMemory>
    ensures text { IfOk result (λ text. text.items ≡ dump_text tables.now) }
{
    tables.tables_law();
    let schema = tables.schema();
    let defs = schema.defs()?;
    let indexes = schema.indexes()?;
    let mut out = Vec::new(alloc);
    push_tables(alloc, tables, indexes.as_slice(), defs.as_slice(), &mut out)?;
    Ok(out)
}

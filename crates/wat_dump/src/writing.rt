// Statements that write acts, as text.
ghost use Rattle.std.specs.Prelude.{◌≡◌, ◌∷◌, ◌++◌, [], IfOk, OnOk};
ghost use Rattle.wat_meaning.specs.Meaning.{sole_row};
ghost use Rattle.wat_schema.specs.Tables.{Table};
ghost use Rattle.wat_script_texts.specs.Texts.{ended_text, script_text};
ghost use Rattle.wat_dump.specs.Dump.{commit_of, index_made, table_made, written};
ghost use Rattle.wat_dump.specs.Dumping.{combination_statements, index_statements, row_statements};

use std::alloc::Global;
use wat_ast::Statement;
use wat_list::{Copied, Items, NoMemory};
use wat_schema::Schema;
use wat_spell::spell;
use wat_tables::StoredTable;
use wat_value::{Act, Change, Combination, IndexDef, Row, SchemaChange, TableDef};
use wat_written::statement_of;

/// Adds the statement, `;` and a line feed.
fn push_ended(statement: &Statement, out: &mut Vec<u8>) -> Result<(), NoMemory>
    ensures { OnOk result (out.new.items ≡ out.old.items ++ ended_text statement.now) }
{
    spell(statement, out)?;
    out.extend_from_slice(&[59, 10])
}

/// Adds the statement that writes the act over the schema, if there is one.
fn push_act(alloc: Global, schema: &Schema, act: &Act, out: &mut Vec<u8>) -> Result<(), NoMemory>
    ensures { OnOk result (out.new.items ≡ out.old.items ++ script_text (written schema.now act.now)) }
{
    match statement_of(alloc, schema, act)? {
        Some(statement) => push_ended(&statement, out),
        None => Ok(()),
    }
}

/// Adds CREATE TABLE.
pub(crate) fn push_table(
    alloc: Global,
    schema: &Schema,
    def: &TableDef,
    out: &mut Vec<u8>,
) -> Result<(), NoMemory>
    ensures { OnOk result (out.new.items ≡ out.old.items ++ script_text (written schema.now (table_made def.now))) }
{
    let act = Act::OnSchema(SchemaChange::CreateTable(def.copy(alloc)?));
    push_act(alloc, schema, &act, out)
}

fn push_index(
    alloc: Global,
    schema: &Schema,
    index: &IndexDef,
    out: &mut Vec<u8>,
) -> Result<(), NoMemory>
    ensures { OnOk result (out.new.items ≡ out.old.items ++ script_text (written schema.now (index_made index.now))) }
{
    let act = Act::OnSchema(SchemaChange::CreateIndex(index.copy(alloc)?));
    push_act(alloc, schema, &act, out)
}

/// Adds the index, if it is the table's.
fn push_own_index(
    alloc: Global,
    schema: &Schema,
    def: &TableDef,
    index: &IndexDef,
    out: &mut Vec<u8>,
) -> Result<(), NoMemory>
    ensures { OnOk result (out.new.items ≡ out.old.items ++ script_text (index_statements schema.now def.now (index.now ∷ []))) }
{
    if def.number == index.table {
        push_index(alloc, schema, index, out)
    } else {
        Ok(())
    }
}

/// Adds CREATE INDEX for each index that is the table's.
pub(crate) fn push_indexes(
    alloc: Global,
    schema: &Schema,
    def: &TableDef,
    indexes: &[IndexDef],
    out: &mut Vec<u8>,
) -> Result<(), NoMemory>
    ensures { OnOk result (out.new.items ≡ out.old.items ++ script_text (index_statements schema.now def.now indexes.now)) }
{
    for index in indexes {
        push_own_index(alloc, schema, def, index, out)?;
    }
    Ok(())
}

fn sole_row(alloc: Global, rows: &Combination) -> Result<Row, NoMemory>
    ensures { IfOk result (λ row. row ≡ sole_row rows.now) }
{
    match rows.as_slice() {
        [Some(row), ..] => row.copy(alloc),
        _ => Ok(Items::new(alloc)),
    }
}

/// Adds INSERT of the combination's row.
fn push_row(
    alloc: Global,
    schema: &Schema,
    def: &TableDef,
    rows: &Combination,
    out: &mut Vec<u8>,
) -> Result<(), NoMemory>
    ensures { OnOk result (out.new.items ≡ out.old.items ++ script_text (combination_statements schema.now def.now rows.now)) }
{
    let row = sole_row(alloc, rows)?;
    let act = Act::OnRow(Change::Insert {
        table: def.number,
        row,
    });
    push_act(alloc, schema, &act, out)
}

/// Adds INSERT of each row.
fn push_each_row(
    alloc: Global,
    schema: &Schema,
    def: &TableDef,
    table: &StoredTable,
    out: &mut Vec<u8>,
) -> Result<(), NoMemory>
    ensures { OnOk result (out.new.items ≡ out.old.items ++ script_text (row_statements schema.now def.now table.now.rows)) }
{
    for rows in table.rows() {
        push_row(alloc, schema, def, rows, out)?;
    }
    Ok(())
}

/// Adds COMMIT, where the table has rows.
fn push_commit(table: &StoredTable, out: &mut Vec<u8>) -> Result<(), NoMemory>
    ensures { OnOk result (out.new.items ≡ out.old.items ++ script_text (commit_of table.now.rows)) }
{
    let mut rows = table.rows();
    match rows.next() {
        Some(_) => push_ended(&Statement::Commit, out),
        None => Ok(()),
    }
}

/// Adds INSERT of each row, and COMMIT behind them.
pub(crate) fn push_rows(
    alloc: Global,
    schema: &Schema,
    def: &TableDef,
    table: &StoredTable,
    out: &mut Vec<u8>,
) -> Result<(), NoMemory>
    ensures { OnOk result (out.new.items ≡ out.old.items ++ script_text (row_statements schema.now def.now table.now.rows ++ commit_of table.now.rows)) }
{
    push_each_row(alloc, schema, def, table, out)?;
    push_commit(table, out)
}

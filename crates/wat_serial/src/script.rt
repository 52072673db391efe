ghost use Rattle.std.specs.Prelude.{◌≡◌, ◌≤◌, ◌+◌, length, unwrap_or, Err, Ok, Some, IsSome, IfErr, IfOk, OnOk, true};
ghost use Rattle.std.specs.List.{Contains};
ghost use Rattle.std.specs.Option.{option_map};
ghost use Rattle.wat_value.specs.declared.change.Change.TheVariants.{Insert};
ghost use Rattle.wat_schema.specs.declared.refusal.Refusal.TheVariants.{Duplicate};
ghost use Rattle.wat_schema.specs.Tables.{apply_all, apply_change, table_at};
ghost use Rattle.wat_names.specs.Refusals.{or_refused};
ghost use Rattle.wat_meaning.specs.Meaning.{has_meaning, meaning};
ghost use Rattle.wat_tables.specs.Acting.{is_fitting, standing_key};
ghost use Rattle.wat_parse.specs.Statements.{statements_of};
ghost use Rattle.wat_serial.specs.Script.{IsRefusedOrMemory, IsUnlessMemory, after_meaning, after_span, after_statement, is_commit, run, run_from};

use crate::computing::meaning;
use crate::plain::{PlainRow, plain_row};
use std::alloc::{AllocError, Global};
use wat_ast::Statement;
use wat_lex::MAX_TEXT;
use wat_list::NoMemory;
use wat_meaning::{Meaning, Reply};
use wat_parse::{ParseRefusal, Span, statement, statements};
use wat_schema::Refusal;
use wat_tables::Tables;
use wat_value::Act;

/// Why a script is not run to its end.
#[derive(Debug, Drop)]
pub enum ScriptRefusal {
    /// The statement with this number, counted from 1, is refused.
    Refused { statement: u32, refusal: Refusal },
    Memory,
}

fn has_meaning(statement: &Statement) -> bool
    ensures { result ≡ has_meaning statement.now }
{
    matches!(
        statement,
        Statement::CreateTable { .. }
            | Statement::CreateIndex { .. }
            | Statement::DropTable { .. }
            | Statement::Insert { .. }
            | Statement::Update { .. }
            | Statement::Delete { .. }
            | Statement::Select(_)
    )
}

fn is_commit(statement: &Statement) -> bool
    ensures { result ≡ is_commit statement.now }
{
    matches!(statement, Statement::Commit)
}

// Makes acts that apply one after another.
fn make_all(tables: &mut Tables, acts: &[Act]) -> Result<(), NoMemory>
    requires { IsSome (apply_all acts.now tables.old) }
    ensures { OnOk result (apply_all acts.now tables.old ≡ Some tables.new) }
{
    for act in acts {
        tables.apply(act)?;
    }
    Ok(())
}

// Inserts the row, or answers that its key stands.
fn make_plain(plain: PlainRow, tables: &mut Tables) -> Result<Option<Refusal>, NoMemory>
    requires { is_fitting (table_at tables.old plain.table) plain.row ≡ true }
    ensures refusal { IfOk result (λ refusal. refusal ≡ option_map Duplicate (standing_key (table_at tables.old plain.table) plain.row)) }
    ensures after { OnOk result (tables.new ≡ unwrap_or (apply_change (Insert plain.table plain.row) tables.old) tables.old) }
{
    let PlainRow { table, row } = plain;
    match tables.insert(table, row)? {
        Some(key) => Ok(Some(Refusal::Duplicate { key })),
        None => Ok(None),
    }
}

// Makes the acts of a statement that has a meaning, or answers why it is refused.
fn make_meant(
    alloc: Global,
    statement: &Statement,
    tables: &mut Tables,
) -> Result<Option<Refusal>, NoMemory>
    requires { has_meaning statement.now ≡ true }
    ensures { IfOk result (λ refusal. after_meaning tables.old (meaning tables.old statement.now) ≡ or_refused tables.new refusal) }
{
    tables.tables_law();
    let meant = meaning(alloc, statement, tables)?;
    let Meaning { answer, acts } = meant;
    if let Reply::Refused(refusal) = answer {
        return Ok(Some(refusal));
    }
    make_all(tables, acts.as_slice())?;
    Ok(None)
}

// The same; a row that needs no check is inserted at once.
fn make(
    alloc: Global,
    statement: &Statement,
    tables: &mut Tables,
) -> Result<Option<Refusal>, NoMemory>
    requires { has_meaning statement.now ≡ true }
    ensures { IfOk result (λ refusal. after_meaning tables.old (meaning tables.old statement.now) ≡ or_refused tables.new refusal) }
{
    let found = plain_row(alloc, statement, tables)?;
    match found {
        Some(plain) => make_plain(plain, tables),
        None => make_meant(alloc, statement, tables),
    }
}

// Makes what a statement whose first token is at this place means, or answers why it is refused.
fn make_statement(
    alloc: Global,
    place: u32,
    statement: &Statement,
    tables: &mut Tables,
) -> Result<Option<Refusal>, NoMemory>
    ensures { IfOk result (λ refusal. after_statement place statement.now tables.old ≡ or_refused tables.new refusal) }
{
    if is_commit(statement) {
        return Ok(None);
    }
    if !has_meaning(statement) {
        return Ok(Some(Refusal::Syntax { at: place }));
    }
    make(alloc, statement, tables)
}

fn make_span(
    alloc: Global,
    text: &str,
    span: Span,
    tables: &mut Tables,
) -> Result<Option<Refusal>, NoMemory>
    requires length { length text.now ≤ MAX_TEXT }
    requires span { Contains (statements_of text.now) span }
    ensures { IfOk result (λ refusal. after_span text.now span tables.old ≡ or_refused tables.new refusal) }
{
    match statement(alloc, text, span) {
        Ok(tree) => make_statement(alloc, span.from, &tree, tables),
        Err(ParseRefusal::Syntax { at }) => Ok(Some(Refusal::Syntax { at })),
        Err(ParseRefusal::Memory) => Err(AllocError),
    }
}

// Runs the statements in order, up to the first that is refused. A number that has no 32 bits is
// answered by want of memory; no text has so many statements.
fn run_all(
    alloc: Global,
    text: &str,
    spans: &[Span],
    tables: &mut Tables,
) -> Result<(), ScriptRefusal>
    requires length { length text.now ≤ MAX_TEXT }
    requires spans { spans.now ≡ statements_of text.now }
    ensures done { OnOk result (run_from text.now 1 spans.now tables.old ≡ Ok tables.new) }
    ensures refused { IfErr result (IsRefusedOrMemory (run_from text.now 1 spans.now tables.old)) }
{
    let mut number: u32 = 0;
    for span in spans {
        let Some(next) = number.checked_add(1) else {
            return Err(ScriptRefusal::Memory);
        };
        number = next;
        match make_span(alloc, text, *span, tables) {
            Ok(None) => {}
            Ok(Some(refusal)) => {
                return Err(ScriptRefusal::Refused {
                    statement: number,
                    refusal,
                });
            }
            Err(_) => return Err(ScriptRefusal::Memory),
        }
    }
    Ok(())
}

/// The tables after a script of at most 16,777,216 bytes, or the first statement that is refused.
///
/// The statements are CREATE, DROP, INSERT, UPDATE, DELETE, SELECT and COMMIT; any other is refused
/// as Syntax at its first token. Each means what it means over the tables that those before it leave.
pub fn run_script(alloc: Global, text: &str, mut tables: Tables) -> Result<Tables, ScriptRefusal>
    requires { length text.now ≤ MAX_TEXT }
    ensures { IsUnlessMemory (run text.now tables) result }
{
    let Ok(spans) = statements(alloc, text) else {
        return Err(ScriptRefusal::Memory);
    };
    match run_all(alloc, text, spans.as_slice(), &mut tables) {
        Ok(()) => Ok(tables),
        Err(refusal) => Err(refusal),
    }
}

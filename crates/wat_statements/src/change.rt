//! INSERT, UPDATE and DELETE.

ghost use Rattle.std.specs.Prelude.{◌≡◌};
ghost use Rattle.wat_grammar.specs.Phrase.{read_within};
ghost use Rattle.wat_cursor.specs.Reading.{Reads};
ghost use Rattle.wat_syntax.specs.Sql as spec;
ghost use Rattle.wat_syntax.specs.Sql.{sql, max_nesting};

use crate::list::{Part, list, names_in_parentheses};
use crate::query::{filter, query};
use std::alloc::Global;
use wat_ast::{Exprs, InsertSource, Names, SetItem, SetItems, Statement};
use wat_cursor::{Cursor, Fault};
use wat_expressions::{expression, expressions};
use wat_syntax::Kind;

fn values(alloc: Global, cursor: &mut Cursor<'_>) -> Result<Exprs, Fault>
    ensures { Reads (read_within sql max_nesting (spec.in_parentheses (spec.list spec.expression)) cursor.old) result cursor.new }
{
    cursor.word(Kind::Open)?;
    let found = expressions(alloc, cursor)?;
    cursor.word(Kind::Close)?;
    Ok(found)
}

// VALUES ( expr {, expr} ) | query.
#[tactic(auto, unfolding(wat_syntax::specs::Sql::insert_source))]
fn insert_source(alloc: Global, cursor: &mut Cursor<'_>) -> Result<InsertSource, Fault>
    ensures { Reads (read_within sql max_nesting spec.insert_source cursor.old) result cursor.new }
{
    if cursor.sees(Kind::Values) {
        cursor.word(Kind::Values)?;
        return Ok(InsertSource::Values(values(alloc, cursor)?));
    }
    Ok(InsertSource::Answer(query(alloc, cursor)?))
}

// [( name {, name} )].
#[tactic(auto, unfolding(wat_syntax::specs::Sql::insert_columns))]
fn insert_columns(alloc: Global, cursor: &mut Cursor<'_>) -> Result<Option<Names>, Fault>
    ensures { Reads (read_within sql max_nesting spec.insert_columns cursor.old) result cursor.new }
{
    if cursor.sees(Kind::Open) {
        return Ok(Some(names_in_parentheses(alloc, cursor)?));
    }
    Ok(None)
}

/// INSERT [INTO] name and what belongs to it.
#[tactic(auto, unfolding(wat_syntax::specs::Sql::insert))]
pub fn insert(alloc: Global, cursor: &mut Cursor<'_>) -> Result<Statement, Fault>
    ensures { Reads (read_within sql max_nesting spec.insert cursor.old) result cursor.new }
{
    cursor.word(Kind::Insert)?;
    let _ = cursor.takes(Kind::Into);
    let table = cursor.name(alloc)?;
    let columns = insert_columns(alloc, cursor)?;
    let source = insert_source(alloc, cursor)?;
    Ok(Statement::Insert {
        table,
        columns,
        source,
    })
}

struct ListedSet;

impl Part for ListedSet {
    ghost use Rattle.wat_syntax.specs.Sql.{set_item};

    type Tree = SetItem;

    ghost rule = { set_item };

    #[tactic(auto, unfolding(wat_syntax::specs::Sql::set_item))]
    fn read(alloc: Global, cursor: &mut Cursor<'_>) -> Result<SetItem, Fault> {
        let name = cursor.name(alloc)?;
        cursor.word(Kind::Equal)?;
        let value = expression(alloc, cursor)?;
        Ok(SetItem { name, value })
    }
}

fn set_items(alloc: Global, cursor: &mut Cursor<'_>) -> Result<SetItems, Fault>
    ensures { Reads (read_within sql max_nesting (spec.list spec.set_item) cursor.old) result cursor.new }
{
    list::<ListedSet>(alloc, cursor)
}

/// UPDATE name SET and what belongs to it.
#[tactic(auto, unfolding(wat_syntax::specs::Sql::update))]
pub fn update(alloc: Global, cursor: &mut Cursor<'_>) -> Result<Statement, Fault>
    ensures { Reads (read_within sql max_nesting spec.update cursor.old) result cursor.new }
{
    cursor.word(Kind::Update)?;
    let table = cursor.name(alloc)?;
    cursor.word(Kind::Set)?;
    let sets = set_items(alloc, cursor)?;
    let filter = filter(alloc, cursor)?;
    Ok(Statement::Update {
        table,
        sets,
        filter,
    })
}

/// DELETE [FROM] name [WHERE expr].
#[tactic(auto, unfolding(wat_syntax::specs::Sql::delete))]
pub fn delete(alloc: Global, cursor: &mut Cursor<'_>) -> Result<Statement, Fault>
    ensures { Reads (read_within sql max_nesting spec.delete cursor.old) result cursor.new }
{
    cursor.word(Kind::Delete)?;
    let _ = cursor.takes(Kind::From);
    let table = cursor.name(alloc)?;
    let filter = filter(alloc, cursor)?;
    Ok(Statement::Delete { table, filter })
}

//! Lists with commas between.

ghost use Rattle.std.specs.Prelude.{◌≡◌};
ghost use Rattle.wat_grammar.specs.Phrase.{read_within};
ghost use Rattle.wat_cursor.specs.Reading.{Reads};
ghost use Rattle.wat_syntax.specs.Sql as spec;
ghost use Rattle.wat_syntax.specs.Sql.{Sql, sql, max_nesting};

use std::alloc::Global;
use wat_ast::{Expr, Name, Names};
use wat_cursor::{Cursor, Fault};
use wat_expressions::column;
use wat_list::Items;
use wat_syntax::Kind;

/// What stands between the commas of a list.
pub trait Part {
    type Tree: Drop;

    /// The rule that it is read by.
    ghost rule: { Sql Self.Tree };

    fn read(alloc: Global, cursor: &mut Cursor<'_>) -> Result<Self::Tree, Fault>
        ensures { Reads (read_within sql max_nesting rule cursor.old) result cursor.new };
}

/// One or more of them.
pub fn list<P: Part>(alloc: Global, cursor: &mut Cursor<'_>) -> Result<Items<P::Tree>, Fault>
    ensures { Reads (read_within sql max_nesting (spec.list P.rule) cursor.old) result cursor.new }
{
    let mut found = Items::new(alloc);
    let first = P::read(alloc, cursor)?;
    found.push(first)?;
    'items: for _turn in 0..cursor.len() {
        if !cursor.sees(Kind::Comma) {
            return Ok(found);
        }
        cursor.advance();
        let next = P::read(alloc, cursor)?;
        found.push(next)?;
    }
    Ok(found)
}

struct ListedName;

impl Part for ListedName {
    ghost use Rattle.wat_syntax.specs.Sql.{name};

    type Tree = Name;

    ghost rule = { name };

    fn read(alloc: Global, cursor: &mut Cursor<'_>) -> Result<Name, Fault> {
        cursor.name(alloc)
    }
}

/// Names.
pub fn names(alloc: Global, cursor: &mut Cursor<'_>) -> Result<Names, Fault>
    ensures { Reads (read_within sql max_nesting (spec.list spec.name) cursor.old) result cursor.new }
{
    list::<ListedName>(alloc, cursor)
}

/// Names in parentheses.
pub fn names_in_parentheses(alloc: Global, cursor: &mut Cursor<'_>) -> Result<Names, Fault>
    ensures { Reads (read_within sql max_nesting (spec.in_parentheses (spec.list spec.name)) cursor.old) result cursor.new }
{
    cursor.word(Kind::Open)?;
    let found = names(alloc, cursor)?;
    cursor.word(Kind::Close)?;
    Ok(found)
}

struct ListedColumn;

impl Part for ListedColumn {
    ghost use Rattle.wat_syntax.specs.Sql.{column};

    type Tree = Expr;

    ghost rule = { column };

    fn read(alloc: Global, cursor: &mut Cursor<'_>) -> Result<Expr, Fault> {
        column(alloc, cursor)
    }
}

/// Columns, as they are written.
pub fn columns(alloc: Global, cursor: &mut Cursor<'_>) -> Result<Items<Expr>, Fault>
    ensures { Reads (read_within sql max_nesting (spec.list spec.column) cursor.old) result cursor.new }
{
    list::<ListedColumn>(alloc, cursor)
}

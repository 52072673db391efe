ghost use Rattle.std.specs.Prelude.{◌≡◌};
ghost use Rattle.wat_grammar.specs.Phrase.{read_within};
ghost use Rattle.wat_syntax.specs.Sql.{sql, list, max_nesting};
ghost use Rattle.wat_syntax.specs.Sql as spec;
ghost use Rattle.wat_cursor.specs.Reading.{Reads};

use crate::operators::any_column;
use crate::reader::nested;
use std::alloc::Global;
use wat_ast::{Expr, Exprs};
use wat_cursor::{Cursor, Fault};
use wat_list::Items;
use wat_syntax::{Kind, Nest};

/// How many levels an expression may open, one inside the other.
const MAX_NESTING: usize = 100;

/// The expression that is to come next. After want of memory the cursor is not used, as with the two calls below.
pub fn expression(alloc: Global, cursor: &mut Cursor<'_>) -> Result<Expr, Fault>
    ensures { Reads (read_within sql max_nesting spec.expression cursor.old) result cursor.new }
{
    nested(alloc, cursor, MAX_NESTING, Nest::Whole)
}

/// The expressions that are to come next, one or more with commas between.
pub fn expressions(alloc: Global, cursor: &mut Cursor<'_>) -> Result<Exprs, Fault>
    ensures { Reads (read_within sql max_nesting (list spec.expression) cursor.old) result cursor.new }
{
    let mut found = Items::new(alloc);
    let first = expression(alloc, cursor)?;
    found.push(first)?;
    'items: for _turn in 0..cursor.len() {
        if !cursor.sees(Kind::Comma) {
            return Ok(found);
        }
        cursor.advance();
        let next = expression(alloc, cursor)?;
        found.push(next)?;
    }
    Ok(found)
}

/// The column that is to come next, as it is written: after its table's name or alias, or without one.
pub fn column(alloc: Global, cursor: &mut Cursor<'_>) -> Result<Expr, Fault>
    ensures { Reads (read_within sql max_nesting spec.column cursor.old) result cursor.new }
{
    any_column(alloc, cursor)
}

ghost use Rattle.wat_grammar.specs.Phrase.{read_within};
ghost use Rattle.wat_cursor.specs.Reading.{ReadsAll};
ghost use Rattle.wat_syntax.specs.Sql as spec;
ghost use Rattle.wat_syntax.specs.Sql.{sql, max_nesting};

use std::alloc::Global;
use wat_ast::Statement;
use wat_cursor::{Cursor, Fault};
use wat_statements::statement;

/// The statement that all of the tokens are. At a fault the cursor stands at the token that does not go on with
/// those before it, or at the end. After want of memory it is not used.
pub fn whole(alloc: Global, cursor: &mut Cursor<'_>) -> Result<Statement, Fault>
    ensures { ReadsAll (read_within sql max_nesting spec.statement cursor.old) result cursor.new }
{
    let tree = statement(alloc, cursor)?;
    if cursor.len() != 0 {
        return Err(Fault::Syntax);
    }
    Ok(tree)
}

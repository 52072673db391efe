//! Any statement, by its first token.

ghost use Rattle.wat_grammar.specs.Phrase.{read_within};
ghost use Rattle.wat_cursor.specs.Reading.{Reads};
ghost use Rattle.wat_syntax.specs.Sql as spec;
ghost use Rattle.wat_syntax.specs.Sql.{sql, max_nesting};

use crate::change::{delete, insert, update};
use crate::create::{create, drop_table};
use crate::query::query;
use crate::transaction::{checkpoint, commit, release, rollback, savepoint, set_option};
use std::alloc::Global;
use wat_ast::Statement;
use wat_cursor::{Cursor, Fault};
use wat_syntax::Kind;

/// The statement that is to come next. After want of memory the cursor is not used.
#[tactic(auto, using(crate::proofs::Choices::statement_is))]
pub fn statement(alloc: Global, cursor: &mut Cursor<'_>) -> Result<Statement, Fault>
    ensures { Reads (read_within sql max_nesting spec.statement cursor.old) result cursor.new }
{
    if cursor.sees(Kind::Create) {
        return create(alloc, cursor);
    }
    if cursor.sees(Kind::Drop) {
        return drop_table(alloc, cursor);
    }
    if cursor.sees(Kind::Insert) {
        return insert(alloc, cursor);
    }
    if cursor.sees(Kind::Update) {
        return update(alloc, cursor);
    }
    if cursor.sees(Kind::Delete) {
        return delete(alloc, cursor);
    }
    if cursor.sees(Kind::Select) {
        return Ok(Statement::Select(query(alloc, cursor)?));
    }
    if cursor.sees(Kind::Commit) {
        return commit(cursor);
    }
    if cursor.sees(Kind::Checkpoint) {
        return checkpoint(cursor);
    }
    if cursor.sees(Kind::Rollback) {
        return rollback(alloc, cursor);
    }
    if cursor.sees(Kind::Savepoint) {
        return savepoint(alloc, cursor);
    }
    if cursor.sees(Kind::Release) {
        return release(alloc, cursor);
    }
    set_option(alloc, cursor)
}

//! COMMIT, ROLLBACK, savepoints and options.

ghost use Rattle.std.specs.Prelude.{◌≡◌};
ghost use Rattle.wat_grammar.specs.Phrase.{read_within};
ghost use Rattle.wat_cursor.specs.Reading.{Reads};
ghost use Rattle.wat_syntax.specs.Sql as spec;
ghost use Rattle.wat_syntax.specs.Sql.{sql, max_nesting};

use std::alloc::Global;
use wat_ast::Statement;
use wat_cursor::{Cursor, Fault};
use wat_syntax::Kind;

/// COMMIT [WORK].
#[tactic(auto, unfolding(wat_syntax::specs::Sql::commit))]
pub fn commit(cursor: &mut Cursor<'_>) -> Result<Statement, Fault>
    ensures { Reads (read_within sql max_nesting spec.commit cursor.old) result cursor.new }
{
    cursor.word(Kind::Commit)?;
    let _ = cursor.takes(Kind::Work);
    Ok(Statement::Commit)
}

/// CHECKPOINT.
#[tactic(auto, unfolding(wat_syntax::specs::Sql::checkpoint))]
pub fn checkpoint(cursor: &mut Cursor<'_>) -> Result<Statement, Fault>
    ensures { Reads (read_within sql max_nesting spec.checkpoint cursor.old) result cursor.new }
{
    cursor.word(Kind::Checkpoint)?;
    Ok(Statement::Checkpoint)
}

/// ROLLBACK [WORK | TO SAVEPOINT name].
#[tactic(auto, unfolding(wat_syntax::specs::Sql::rollback))]
pub fn rollback(alloc: Global, cursor: &mut Cursor<'_>) -> Result<Statement, Fault>
    ensures { Reads (read_within sql max_nesting spec.rollback cursor.old) result cursor.new }
{
    cursor.word(Kind::Rollback)?;
    if cursor.sees(Kind::Work) {
        cursor.word(Kind::Work)?;
        return Ok(Statement::Rollback);
    }
    if cursor.sees(Kind::To) {
        cursor.word(Kind::To)?;
        cursor.word(Kind::Savepoint)?;
        let name = cursor.name(alloc)?;
        return Ok(Statement::RollbackTo { name });
    }
    Ok(Statement::Rollback)
}

/// SAVEPOINT name.
#[tactic(auto, unfolding(wat_syntax::specs::Sql::savepoint))]
pub fn savepoint(alloc: Global, cursor: &mut Cursor<'_>) -> Result<Statement, Fault>
    ensures { Reads (read_within sql max_nesting spec.savepoint cursor.old) result cursor.new }
{
    cursor.word(Kind::Savepoint)?;
    let name = cursor.name(alloc)?;
    Ok(Statement::Savepoint { name })
}

/// RELEASE SAVEPOINT name.
#[tactic(auto, unfolding(wat_syntax::specs::Sql::release))]
pub fn release(alloc: Global, cursor: &mut Cursor<'_>) -> Result<Statement, Fault>
    ensures { Reads (read_within sql max_nesting spec.release cursor.old) result cursor.new }
{
    cursor.word(Kind::Release)?;
    cursor.word(Kind::Savepoint)?;
    let name = cursor.name(alloc)?;
    Ok(Statement::Release { name })
}

// ON, OFF, or one of them as a string.
#[tactic(auto, unfolding(wat_syntax::specs::Sql::switch))]
fn switch(alloc: Global, cursor: &mut Cursor<'_>) -> Result<bool, Fault>
    ensures { Reads (read_within sql max_nesting spec.switch cursor.old) result cursor.new }
{
    if cursor.sees(Kind::On) {
        cursor.word(Kind::On)?;
        return Ok(true);
    }
    if cursor.sees(Kind::Off) {
        cursor.word(Kind::Off)?;
        return Ok(false);
    }
    cursor.quoted_switch(alloc)
}

// ISOLATION_LEVEL = level.
#[tactic(auto, unfolding(wat_syntax::specs::Sql::set_level, wat_syntax::specs::Sql::isolation_level))]
fn set_level(cursor: &mut Cursor<'_>) -> Result<Statement, Fault>
    ensures { Reads (read_within sql max_nesting spec.set_level cursor.old) result cursor.new }
{
    cursor.word(Kind::IsolationLevel)?;
    cursor.word(Kind::Equal)?;
    Ok(Statement::SetLevel(cursor.level()?))
}

// BLOCKING = switch.
#[tactic(auto, unfolding(wat_syntax::specs::Sql::set_blocking))]
fn set_blocking(alloc: Global, cursor: &mut Cursor<'_>) -> Result<Statement, Fault>
    ensures { Reads (read_within sql max_nesting spec.set_blocking cursor.old) result cursor.new }
{
    cursor.word(Kind::Blocking)?;
    cursor.word(Kind::Equal)?;
    Ok(Statement::SetBlocking(switch(alloc, cursor)?))
}

/// SET TEMPORARY OPTION and the option.
#[tactic(auto, using(crate::proofs::Firsts::first_set_level), unfolding(wat_syntax::specs::Sql::set_option))]
pub fn set_option(alloc: Global, cursor: &mut Cursor<'_>) -> Result<Statement, Fault>
    ensures { Reads (read_within sql max_nesting spec.set_option cursor.old) result cursor.new }
{
    cursor.word(Kind::Set)?;
    cursor.word(Kind::Temporary)?;
    cursor.word(Kind::Option)?;
    if cursor.sees(Kind::IsolationLevel) {
        return set_level(cursor);
    }
    set_blocking(alloc, cursor)
}

ghost use Rattle.std.specs.Prelude.{◌≡◌, ◌≤◌, ◌++◌, OnOk};
ghost use Rattle.wat_gen.specs.Session.{filling, level_of, opening};

use crate::statement::Statement;
use wat_list::{Items, NoMemory};

/// Appends the statements that make the table with its first rows.
fn push_filling(statements: &mut Items<Statement>) -> Result<(), NoMemory>
    ensures { OnOk result (statements.new ≡ statements.old ++ filling) }
{
    statements.push(Statement::CreateTable)?;
    statements.push(Statement::CreateIndex)?;
    for i in 0..100u64 {
        statements.push(Statement::Insert { k: 10 * i, v: i })?;
    }
    statements.push(Statement::Commit)
}

/// The isolation level at which the transactions of this script run.
fn level_of(script: u16) -> u8
    ensures { result ≡ level_of script }
{
    match script {
        2 | 6 => 2,
        4 | 8 => 0,
        _ => 3,
    }
}

/// Appends the statements before the transactions of this script.
pub(crate) fn push_opening(statements: &mut Items<Statement>, script: u16) -> Result<(), NoMemory>
    ensures { OnOk result (statements.new ≡ statements.old ++ opening script) }
{
    if script == 1 {
        push_filling(statements)?;
    }
    statements.push(Statement::SetLevel {
        level: level_of(script),
    })?;
    if script >= 7 {
        statements.push(Statement::SetBlockingOff)?;
    }
    Ok(())
}

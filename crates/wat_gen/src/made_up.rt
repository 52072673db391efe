ghost use Rattle.std.specs.Prelude.{◌≡◌, ◌++◌, OnOk, IfOk, codes, map, string_bytes};
ghost use Rattle.std.specs.List.{flat_map};
ghost use Rattle.wat_gen.specs.Numbers.{Gives};
ghost use Rattle.wat_gen.specs.Statements.{drawn_transactions, statement_text};
ghost use Rattle.wat_gen.specs.Session.{drawn_script, drawn_scripts, made_up, script_text};

use crate::draws::Draws;
use crate::opening::push_opening;
use crate::schedule::draw_schedule;
use crate::statement::Statement;
use std::alloc::Global;
use wat_conn::{Script, ScriptList};
use wat_list::{Items, NoMemory};

/// Draws the statements of so many transactions.
fn draw_transactions(
    alloc: Global,
    draws: &mut Draws,
    count: u32,
) -> Result<Items<Statement>, NoMemory>
    ensures { IfOk result (λ statements. Gives (drawn_transactions count) draws.old.number statements draws.new.number) }
{
    let mut statements = Items::new(alloc);
    for _ in 0..count {
        for statement in draws.transaction() {
            statements.push(statement)?;
        }
    }
    Ok(statements)
}

/// Draws the statements of a script with so many transactions.
fn draw_script(
    alloc: Global,
    draws: &mut Draws,
    count: u32,
    script: u16,
) -> Result<Items<Statement>, NoMemory>
    ensures { IfOk result (λ statements. Gives (drawn_script count script) draws.old.number statements draws.new.number) }
{
    let mut statements = Items::new(alloc);
    push_opening(&mut statements, script)?;
    statements.append(draw_transactions(alloc, draws, count)?)?;
    Ok(statements)
}

/// Appends the statements, each with a space before it.
fn push_more_statements(text: &mut String, statements: &[Statement]) -> Result<(), NoMemory>
    ensures { OnOk result (string_bytes text.new ≡ string_bytes text.old ++ flat_map (λ statement. codes " " ++ statement_text statement) statements.now) }
{
    for statement in statements {
        write!(text, " {statement}")?;
    }
    Ok(())
}

/// The text of a script.
fn script_of(alloc: Global, statements: &[Statement]) -> Result<Script, NoMemory>
    ensures { IfOk result (λ script. script ≡ script_text statements.now) }
{
    let mut text = String::new(alloc);
    if let [first, more @ ..] = statements {
        write!(text, "{first}")?;
        push_more_statements(&mut text, more)?;
    }
    Ok(Script::from(text))
}

/// Draws the eight scripts.
fn draw_scripts(alloc: Global, draws: &mut Draws, count: u32) -> Result<ScriptList, NoMemory>
    ensures number { OnOk result (draws.new.number ≡ (drawn_scripts count draws.old.number).1) }
    ensures scripts { IfOk result (λ scripts. scripts ≡ map script_text (drawn_scripts count draws.old.number).0) }
{
    let mut scripts = ScriptList::new(alloc);
    for script in 1..9u16 {
        let statements = draw_script(alloc, draws, count, script)?;
        scripts.push(script_of(alloc, statements.as_slice())?)?;
    }
    Ok(scripts)
}

/// The session that is made up from the number, with so many transactions in each of its eight
/// scripts: what its connections are asked, and in which order they go on.
pub fn scripts(
    alloc: Global,
    number: u64,
    count: u32,
) -> Result<(ScriptList, wat_schedule::Items), NoMemory>
    ensures scripts { IfOk result (λ made. made.0 ≡ map script_text (made_up number count).scripts) }
    ensures schedule { IfOk result (λ made. made.1 ≡ (made_up number count).schedule) }
{
    let mut draws = Draws { number };
    let scripts = draw_scripts(alloc, &mut draws, count)?;
    let schedule = draw_schedule(alloc, &mut draws, count)?;
    Ok((scripts, schedule))
}

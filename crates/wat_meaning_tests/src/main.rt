//! Checks and answers the statements of three files, and prints each one with what is said of it.
//!
//! Those of `checks.sql` are checked against the schema that they make. Those of `answers.sql` are
//! answered over the rows that they insert. Of each query of `outcomes.sql` the outcome is taken that
//! its WHERE has over no row, or its item where it has no WHERE.
#![tactic(auto)]

ghost use Rattle.std.specs.Prelude.{◌≡◌, ◌≤◌, true, length};
ghost use Rattle.std.specs.List.{Contains};
ghost use Rattle.wat_parse.specs.Statements.{statements_of};
ghost use Rattle.wat_rules.specs.Changes.{changes_schema, IsAllowed};

mod database;
mod faults;
mod outcomes;
mod printing;

use crate::database::Database;
use crate::outcomes::outcome;
use crate::printing::{printed_outcome, printed_refusal};
use std::alloc::{AllocError, Global};
use std::{fs, io};
use wat_ast::Statement;
use wat_parse::{ParseRefusal, Span, statement, statements};
use wat_rules::{CheckRefusal, check};

/// What is shown of a statement that is checked through.
#[derive(Clone, Copy)]
enum Shown {
    Nothing,
    Answer,
    Outcome,
}

fn answered(
    alloc: Global,
    placed: &Statement,
    base: &mut Database,
    shown: Shown,
) -> Result<String, AllocError>
    requires { changes_schema placed.now ≡ true → IsAllowed base.old.schema placed.now }
{
    match shown {
        Shown::Nothing => base.make(alloc, placed),
        Shown::Answer => base.answer(alloc, placed),
        Shown::Outcome => match placed {
            Statement::Select(query) => printed_outcome(alloc, &outcome(alloc, query)?),
            _ => base.make(alloc, placed),
        },
    }
}

fn checked(
    alloc: Global,
    written: &Statement,
    base: &mut Database,
    shown: Shown,
) -> Result<String, AllocError> {
    match check(alloc, written, &base.schema) {
        Ok(placed) => answered(alloc, &placed, base, shown),
        Err(CheckRefusal::Refused(refusal)) => printed_refusal(alloc, &refusal),
        Err(CheckRefusal::Memory) => Err(AllocError),
    }
}

fn said(
    alloc: Global,
    text: &str,
    span: Span,
    base: &mut Database,
    shown: Shown,
) -> Result<String, AllocError>
    requires length { length text.now ≤ 16777216 }
    requires span { Contains (statements_of text.now) span }
{
    match statement(alloc, text, span) {
        Ok(written) => checked(alloc, &written, base, shown),
        Err(ParseRefusal::Syntax { at }) => format!(in alloc; "Syntax {at}"),
        Err(ParseRefusal::Memory) => Err(AllocError),
    }
}

fn main(rt: HostRuntime) -> io::Result<()> {
    let alloc = rt.alloc();
    for (file, shown) in [
        ("checks.sql", Shown::Nothing),
        ("answers.sql", Shown::Answer),
        ("outcomes.sql", Shown::Outcome),
    ] {
        let text = fs::read_to_string(&rt, file)?;
        let text = text.as_str();
        if text.len() > 16777216 {
            return Ok(());
        }
        let mut base = Database::new(alloc);
        let spans = statements(alloc, text)?;
        for i in 0..spans.len() {
            let span = spans.as_slice()[i];
            if let Some(written) = text.get(span.from as usize..span.to as usize) {
                println!(rt; "{written}")?;
            }
            let said = said(alloc, text, span, &mut base, shown)?;
            println!(rt; "    {said}")?;
        }
    }
    Ok(())
}

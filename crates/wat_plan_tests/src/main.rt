//! Plans the queries of `plans.sql`, and prints each with its scans, the outermost first: the source, the
//! number of the index, and the interval over the last rows that were inserted. Then it prints what an index in memory
//! answers.
#![tactic(auto)]

ghost use Rattle.std.specs.Prelude.{◌≡◌, ◌≤◌, true, length};
ghost use Rattle.std.specs.List.{Contains};
ghost use Rattle.wat_parse.specs.Statements.{statements_of};
ghost use Rattle.wat_rules.specs.Changes.{changes_schema, IsAllowed};

mod database;
mod keys;
mod printing;

use crate::database::Database;
use std::alloc::{AllocError, Global};
use std::{fs, io};
use wat_ast::Statement;
use wat_parse::{ParseRefusal, Span, statement, statements};
use wat_rules::{CheckRefusal, check};

fn checked(alloc: Global, written: &Statement, base: &mut Database) -> Result<String, AllocError> {
    match check(alloc, written, &base.schema) {
        Ok(placed) => base.done(alloc, &placed),
        Err(CheckRefusal::Refused(_)) => String::from_str(alloc, "refused"),
        Err(CheckRefusal::Memory) => Err(AllocError),
    }
}

fn said(alloc: Global, text: &str, span: Span, base: &mut Database) -> Result<String, AllocError>
    requires length { length text.now ≤ 16777216 }
    requires span { Contains (statements_of text.now) span }
{
    match statement(alloc, text, span) {
        Ok(written) => checked(alloc, &written, base),
        Err(ParseRefusal::Syntax { at }) => format!(in alloc; "Syntax {at}"),
        Err(ParseRefusal::Memory) => Err(AllocError),
    }
}

fn main(rt: HostRuntime) -> io::Result<()> {
    let alloc = rt.alloc();
    let text = fs::read_to_string(&rt, "plans.sql")?;
    let text = text.as_str();
    if text.len() > 16777216 {
        return Ok(());
    }
    let mut base = Database::new(alloc);
    let spans = statements(alloc, text)?;
    for i in 0..spans.len() {
        let span = spans.as_slice()[i];
        if let Some(written) = text.get(span.from as usize..span.to as usize) {
            println!(rt; "{written}")?;
        }
        let said = said(alloc, text, span, &mut base)?;
        println!(rt; "    {said}")?;
    }
    let answers = keys::answers(alloc)?;
    println!(rt; "{answers}")
}

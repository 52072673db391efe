//! Runs statements and scripts by their meaning over tables, and prints each one with what it comes
//! to.
//!
//! The statements of `answers.sql` and of `changes.sql` mean what they mean over the tables that
//! those before them leave. Each script is run on no tables, and the rows of its table n are shown.
#![tactic(auto)]

mod printing;
mod session;

use crate::printing::{printed_refusal, printed_reply};
use crate::session::replies;
use std::alloc::{AllocError, Global};
use std::{fs, io};
use wat_ast::Statement;
use wat_meaning::Meaning;
use wat_parse::{Span, statement, statements};
use wat_schema::Schema;
use wat_serial::{ScriptRefusal, meaning, run_script};
use wat_tables::Tables;

// The text is that of a query.
fn shown(alloc: Global, query: &str, tables: &Tables) -> Result<String, AllocError> {
    if query.len() > 16777216 {
        return String::from_str(alloc, "too long");
    }
    let spans = statements(alloc, query)?;
    if spans.len() != 1 {
        return String::from_str(alloc, "no statement");
    }
    let span = spans.as_slice()[0];
    match statement(alloc, query, span) {
        Ok(read) => {
            let Meaning { answer, acts: _ } = meaning(alloc, &read, tables)?;
            printed_reply(alloc, &answer)
        }
        Err(_) => String::from_str(alloc, "no statement"),
    }
}

fn outcome(alloc: Global, text: &str) -> Result<String, AllocError> {
    let tables = Tables::of(alloc, &Schema::new(alloc))?;
    if text.len() > 16777216 {
        return String::from_str(alloc, "too long");
    }
    match run_script(alloc, text, tables) {
        Ok(tables) => shown(alloc, "SELECT * FROM n", &tables),
        Err(ScriptRefusal::Refused { statement, refusal }) => {
            let refusal = printed_refusal(alloc, &refusal)?;
            format!(in alloc; "refused at {statement}: {refusal}")
        }
        Err(ScriptRefusal::Memory) => Err(AllocError),
    }
}

fn main(rt: HostRuntime) -> io::Result<()> {
    let alloc = rt.alloc();
    for file in ["answers.sql", "changes.sql"] {
        let text = fs::read_to_string(&rt, file)?;
        let said = replies(alloc, text.as_str())?;
        print!(rt; "{said}")?;
    }
    for script in [
        "translated.sql",
        "orders.sql",
        "refused.sql",
        "syntax.sql",
        "savepoint.sql",
    ] {
        let text = fs::read_to_string(&rt, script)?;
        let said = outcome(alloc, text.as_str())?;
        println!(rt; "{script}\n    {said}")?;
    }
    Ok(())
}

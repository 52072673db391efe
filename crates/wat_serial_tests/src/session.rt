ghost use Rattle.std.specs.Prelude.{◌≤◌, length};
ghost use Rattle.std.specs.List.{Contains};
ghost use Rattle.wat_parse.specs.Statements.{statements_of};

use crate::printing::printed_reply;
use std::alloc::{AllocError, Global};
use wat_ast::Statement;
use wat_meaning::Meaning;
use wat_parse::{ParseRefusal, Span, statement, statements};
use wat_schema::Schema;
use wat_serial::meaning;
use wat_tables::Tables;
use wat_value::Act;

fn make(acts: &[Act], tables: &mut Tables) -> Result<(), AllocError> {
    for act in acts {
        tables.apply(act)?;
    }
    Ok(())
}

fn replied(alloc: Global, read: &Statement, tables: &mut Tables) -> Result<String, AllocError> {
    let Meaning { answer, acts } = meaning(alloc, read, tables)?;
    make(acts.as_slice(), tables)?;
    printed_reply(alloc, &answer)
}

fn answered(
    alloc: Global,
    text: &str,
    span: Span,
    tables: &mut Tables,
) -> Result<String, AllocError>
    requires length { length text.now ≤ 16777216 }
    requires span { Contains (statements_of text.now) span }
{
    match statement(alloc, text, span) {
        Ok(read) => replied(alloc, &read, tables),
        Err(ParseRefusal::Syntax { at }) => format!(in alloc; "Syntax {at}"),
        Err(ParseRefusal::Memory) => Err(AllocError),
    }
}

fn shown(alloc: Global, text: &str, span: Span, tables: &mut Tables) -> Result<String, AllocError>
    requires length { length text.now ≤ 16777216 }
    requires span { Contains (statements_of text.now) span }
{
    let said = answered(alloc, text, span, tables)?;
    match text.get(span.from as usize..span.to as usize) {
        Some(written) => format!(in alloc; "{written}\n    {said}\n"),
        None => Ok(said),
    }
}

/// Each statement of a text with what it is replied over the tables that those before it leave.
pub(crate) fn replies(alloc: Global, text: &str) -> Result<String, AllocError> {
    let mut shown_all = String::new(alloc);
    if text.len() > 16777216 {
        return Ok(shown_all);
    }
    let mut tables = Tables::of(alloc, &Schema::new(alloc))?;
    let spans = statements(alloc, text)?;
    for i in 0..spans.len() {
        let said = shown(alloc, text, spans.as_slice()[i], &mut tables)?;
        shown_all.push_str(said.as_str())?;
    }
    Ok(shown_all)
}

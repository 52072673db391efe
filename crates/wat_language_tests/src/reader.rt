//! What the tests read of a text.

use std::alloc::{Alloc, Global};
use std::process::Abort;
use std::test::Fail;
use wat_ast::{Name, Statement};
use wat_lex::MAX_TEXT;
use wat_parse::{ParseRefusal, statement, statements};

pub type Read = Result<Statement, ParseRefusal>;

/// What the statement of that number, counted from 0, is.
pub fn nth(rt: &(impl Abort + Alloc<A = Global>), text: &str, n: usize) -> Result<Read, Fail> {
    assert!(rt; text.len() <= MAX_TEXT);
    let spans = statements(rt.alloc(), text)?;
    let spans = spans.as_slice();
    assert!(rt; n < spans.len(), "{text}");
    Ok(statement(rt.alloc(), text, spans[n]))
}

/// Where the statement of that number goes wrong, if it does.
pub fn fault_of(
    rt: &(impl Abort + Alloc<A = Global>),
    text: &str,
    n: usize,
) -> Result<Option<u32>, Fail> {
    match nth(rt, text, n)? {
        Err(ParseRefusal::Syntax { at }) => Ok(Some(at)),
        _ => Ok(None),
    }
}

/// How many statements the text has.
pub fn count_of(rt: &(impl Abort + Alloc<A = Global>), text: &str) -> Result<usize, Fail> {
    assert!(rt; text.len() <= MAX_TEXT);
    let spans = statements(rt.alloc(), text)?;
    Ok(spans.len())
}

pub fn name(alloc: Global, text: &str) -> Result<Name, Fail> {
    let name = Name::new(alloc, text)?;
    Ok(name.ok_or("no name")?)
}

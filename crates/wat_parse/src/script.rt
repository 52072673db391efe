ghost use Rattle.std.specs.Prelude.{◌≡◌, ◌≤◌, ◌++◌, ◌∷◌, length, slice_index, Some, OnOk, IfOk};
ghost use Rattle.std.specs.Option.{option_to_list};
ghost use Rattle.wat_parse.specs.Statements as spec;

use std::alloc::Global;
use wat_lex::{MAX_TEXT, Token, TokenKind, tokens};
use wat_list::{Items, NoMemory};

/// The bytes from `from` up to `to`, counted from the start of the script.
#[derive(Clone, Copy, Debug, PartialEq, Eq)]
pub struct Span {
    pub from: u32,
    pub to: u32,
}

pub type Spans = Items<Span>;

fn byte_at(text: &[u8], at: usize) -> u8
    ensures { result ≡ slice_index text.now at }
{
    if at < text.len() { text[at] } else { 0 }
}

fn is_semicolon(text: &[u8], token: &Token) -> bool
    ensures { result ≡ spec.is_semicolon text.now token.now }
{
    token.kind == TokenKind::Symbol && byte_at(text, token.from as usize) == b';'
}

fn lengthened(group: Option<Span>, token: &Token) -> Span
    ensures { result ≡ spec.lengthened group token.now }
{
    let from = match group {
        None => token.from,
        Some(span) => span.from,
    };
    Span { from, to: token.to }
}

fn push_span(spans: &mut Spans, group: Option<Span>) -> Result<(), NoMemory>
    ensures { OnOk result (spans.new ≡ spans.old ++ option_to_list group) }
{
    match group {
        None => Ok(()),
        Some(span) => spans.push(span),
    }
}

/// The statements of the script, of at most 16,777,216 bytes: the groups of tokens between
/// semicolons that are not empty, each from its first token up to the end of its last.
pub fn statements(alloc: Global, text: &str) -> Result<Spans, NoMemory>
    requires { length text.now ≤ MAX_TEXT }
    ensures { IfOk result (λ spans. spans ≡ spec.statements_of text.now) }
{
    let bytes = text.as_bytes();
    let found = tokens(alloc, text)?;
    let mut spans = Items::new(alloc);
    let mut group = None;
    let mut rest = found.as_slice();
    'tokens: while let [token, more @ ..] = rest {
        if is_semicolon(bytes, token) {
            push_span(&mut spans, group)?;
            group = None;
        } else {
            group = Some(lengthened(group, token));
        }
        rest = more;
    }
    push_span(&mut spans, group)?;
    Ok(spans)
}

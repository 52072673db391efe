ghost use Rattle.std.specs.Prelude.{◌≡◌, ◌<◌, ◌≤◌, ◌+◌, ◌^◌, ◌++◌, length, OnOk, IfOk};
ghost use Rattle.std.specs.List.{AllByRecursion};
ghost use Rattle.wat_lex.specs.Rules.{IsCut};
ghost use Rattle.wat_lex.specs.Tokens as spec;
ghost use Rattle.wat_lex.specs.Values.{IsSlice};

use crate::piece::piece;
use std::alloc::Global;
use wat_list::{Items, NoMemory};

/// The most bytes that a text has.
pub const MAX_TEXT: usize = 16_777_216;

/// What a token is.
#[derive(Clone, Copy, Debug, PartialEq, Eq)]
pub enum TokenKind {
    Word,
    Number,
    /// A string, with its quotes.
    Quoted,
    Symbol,
    /// What no rule reads. It reaches to the end of the text.
    Bad,
}

/// A token: the bytes from `from` up to `to`, counted from the start of the text.
#[derive(Clone, Copy, Debug, PartialEq, Eq)]
pub struct Token {
    pub kind: TokenKind,
    pub from: u32,
    pub to: u32,
}

pub type Tokens = Items<Token>;

/// Adds the token of a piece, if it is one.
pub fn push_token(
    found: &mut Tokens,
    kind: Option<TokenKind>,
    at: usize,
    len: usize,
) -> Result<(), NoMemory>
    requires { at + len < 2 ^ 32 }
    ensures { OnOk result (found.new ≡ found.old ++ spec.token_at at kind len) }
{
    match kind {
        None => Ok(()),
        Some(kind) => found.push(Token {
            kind,
            from: at as u32,
            to: (at + len) as u32,
        }),
    }
}

fn read_tokens(alloc: Global, text: &[u8]) -> Result<Tokens, NoMemory>
    requires { length text.now ≤ MAX_TEXT }
    ensures { IfOk result (λ ts. ts ≡ spec.tokens_of text.now) }
{
    let mut found = Items::new(alloc);
    let mut at = 0;
    'pieces: while at < text.len() {
        let (kind, len) = piece(&text[at..]);
        push_token(&mut found, kind, at, len)?;
        at += len;
    }
    Ok(found)
}

/// The tokens of the text, of at most 16,777,216 bytes.
pub fn tokens(alloc: Global, text: &str) -> Result<Tokens, NoMemory>
    requires { length text.now ≤ MAX_TEXT }
    ensures tokens { IfOk result (λ ts. ts ≡ spec.tokens_of text.now) }
    // The text is cut into blanks, comments and these tokens, each by its rule.
    ensures cut { IfOk result (λ ts. IsCut 0 text.now ts) }
    // Each of them is cut between characters.
    ensures slices { IfOk result (λ ts. AllByRecursion (IsSlice text.now) ts) }
{
    read_tokens(alloc, text.as_bytes())
}

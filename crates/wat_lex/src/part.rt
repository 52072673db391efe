//! The tokens of a part of a text.

ghost use Rattle.std.specs.Prelude.{◌≡◌, ◌<◌, ◌≤◌, ◌+◌, ◌^◌, ◌++◌, [], nat_le, if◌then◌else◌, true, length, drop, OnOk, IfOk};
ghost use Rattle.std.specs.List.{AllByRecursion};
ghost use Rattle.wat_lex.specs.Parts as spec;
ghost use Rattle.wat_lex.specs.Tokens.{token_at, tokens_from, tokens_of};
ghost use Rattle.wat_lex.specs.Values.{IsSlice};

use crate::piece::piece;
use crate::token::{MAX_TEXT, TokenKind, Tokens, push_token};
use std::alloc::Global;
use wat_list::{NoMemory, Reserved};

/// The tokens of a part of a text.
#[derive(Drop)]
pub struct Part {
    pub tokens: Tokens,
    /// Where the next token behind the part begins, or the end of the text where there is none.
    pub next: u32,
}

// An empty list of tokens, with room for what most statements of so many bytes have.
fn with_room(alloc: Global, len: u32) -> Result<Tokens, NoMemory>
    ensures { IfOk result (λ ts. ts ≡ []) }
{
    let room = (len as usize / 3 + 2).min(64);
    Ok(Reserved::with_room(alloc, room)?.into_items())
}

fn push_within(
    found: &mut Tokens,
    kind: Option<TokenKind>,
    at: usize,
    len: usize,
    end: usize,
) -> Result<(), NoMemory>
    requires { at + len < 2 ^ 32 }
    ensures { OnOk result (found.new ≡ found.old ++ (if nat_le (at + len) end then token_at at kind len else [])) }
{
    if at + len <= end {
        return push_token(found, kind, at, len);
    }
    Ok(())
}

// Where the first token begins from a piece on, or the end.
fn next_token(text: &[u8], start: usize) -> usize
    requires { start ≤ length text.now }
    ensures next { result ≡ spec.next_from 0 (length text.now) (tokens_from 0 start (drop start text.now)) }
    ensures within { result ≤ length text.now }
{
    let mut at = start;
    'blanks: while at < text.len() {
        let (kind, len) = piece(&text[at..]);
        if kind.is_some() {
            return at;
        }
        at += len;
    }
    at
}

/// The tokens of the text, of at most 16,777,216 bytes, between two places. A token begins at the first of them.
///
/// It takes the time of that part alone.
pub fn tokens_between(alloc: Global, text: &str, from: u32, to: u32) -> Result<Part, NoMemory>
    requires length { length text.now ≤ MAX_TEXT }
    requires begins { spec.begins_token (tokens_of text.now) from ≡ true }
    requires ordered { from ≤ to }
    ensures tokens { IfOk result (λ part. part.tokens ≡ spec.tokens_within text.now from to) }
    // Each of them is cut between characters.
    ensures slices { IfOk result (λ part. AllByRecursion (IsSlice text.now) part.tokens) }
    ensures next { IfOk result (λ part. part.next ≡ spec.next_from to (length text.now) (tokens_of text.now)) }
{
    let bytes = text.as_bytes();
    let end = to as usize;
    let mut found = with_room(alloc, to - from)?;
    let mut at = from as usize;
    'pieces: while at < end && at < bytes.len() {
        let (kind, len) = piece(&bytes[at..]);
        push_within(&mut found, kind, at, len, end)?;
        at += len;
    }
    let next = next_token(bytes, at) as u32;
    Ok(Part {
        tokens: found,
        next,
    })
}

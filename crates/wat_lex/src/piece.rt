//! Cuts the piece at the front of a text.

ghost use Rattle.std.specs.Prelude.{◌≡◌, ◌<◌, ◌≤◌, ◌+◌, ◌^◌, length, drop, false, slice_index, IfSome};
ghost use Rattle.std.specs.Char.{is_ascii_digit};
ghost use Rattle.std.specs.List.{prefix_len};
ghost use Rattle.wat_lex.specs.Tokens as spec;
ghost use Rattle.wat_word.specs.Words as words;

use crate::token::TokenKind;
use wat_word::{MAX_WORD, is_word_byte};

/// A kind of token, or None for blanks and for a comment; and a length in bytes.
pub type Piece = (Option<TokenKind>, usize);

/// What the value of a number stays below.
pub const NUMBER_LIMIT: u128 = 9_223_372_036_854_775_808;

fn is_blank(b: u8) -> bool
    ensures { result ≡ spec.is_blank b }
{
    b == b' ' || b == b'\t' || b == b'\r' || b == b'\n'
}

fn blank_bytes(text: &[u8]) -> usize
    ensures value { result ≡ prefix_len spec.is_blank text.now }
    ensures within { result ≤ length text.now }
{
    text.iter().take_while(|b| is_blank(**b)).count()
}

fn line_bytes(text: &[u8]) -> usize
    ensures value { result ≡ prefix_len spec.is_no_line_feed text.now }
    ensures within { result ≤ length text.now }
{
    text.iter().take_while(|b| **b != b'\n').count()
}

fn word_bytes(text: &[u8]) -> usize
    ensures value { result ≡ prefix_len words.is_word_byte text.now }
    ensures within { result ≤ length text.now }
{
    text.iter().take_while(|b| is_word_byte(**b)).count()
}

fn digit_bytes(text: &[u8]) -> usize
    ensures value { result ≡ prefix_len is_ascii_digit text.now }
    ensures within { result ≤ length text.now }
{
    text.iter().take_while(|b| b.is_ascii_digit()).count()
}

// The byte there, or 0 past the end.
fn byte_at(text: &[u8], at: usize) -> u8
    ensures { result ≡ slice_index text.now at }
{
    if at < text.len() { text[at] } else { 0 }
}

/// The number that the digits spell, or the limit where it is above.
pub fn value_of(digits: &[u8]) -> u128
    ensures value { result ≡ spec.value_of digits.now }
    ensures limit { result ≤ 9223372036854775808 }
{
    let mut value: u128 = 0;
    for digit in digits {
        value = (10 * value + u128::from(digit.saturating_sub(b'0'))).min(NUMBER_LIMIT);
    }
    value
}

fn word(text: &[u8]) -> Piece
    ensures piece { result ≡ spec.word text.now }
    ensures within { result.1 ≤ length text.now }
{
    let n = word_bytes(text);
    if n <= MAX_WORD {
        (Some(TokenKind::Word), n)
    } else {
        (Some(TokenKind::Bad), text.len())
    }
}

fn is_spoiled(text: &[u8], at: usize) -> bool
    ensures { result ≡ words.is_word_byte (slice_index text.now at) }
{
    is_word_byte(byte_at(text, at))
}

fn number(text: &[u8]) -> Piece
    ensures piece { result ≡ spec.number text.now }
    ensures within { result.1 ≤ length text.now }
{
    let n = digit_bytes(text);
    if value_of(&text[..n]) < NUMBER_LIMIT && !is_spoiled(text, n) {
        (Some(TokenKind::Number), n)
    } else {
        (Some(TokenKind::Bad), text.len())
    }
}

// The place behind the closing quote, for what follows an opening one.
fn closing(mut text: &[u8]) -> Option<usize>
    requires { length text.now < 2 ^ 63 }
    ensures value { result ≡ spec.closing false 1 text.entry.now }
    ensures within { IfSome result (λ end. (1 ≤ end) × (end ≤ length text.entry.now + 1)) }
{
    let mut is_second = false;
    let mut at = 1;
    while let [b, rest @ ..] = text {
        if !is_second && *b == b'\'' && byte_at(rest, 0) != b'\'' {
            return Some(at + 1);
        }
        is_second = !is_second && *b == b'\'';
        at += 1;
        text = rest;
    }
    None
}

fn quoted(text: &[u8]) -> Piece
    requires { 0 < length text.now }
    ensures piece { result ≡ spec.quoted text.now }
    ensures within { result.1 ≤ length text.now }
    ensures some { 0 < result.1 }
{
    match closing(&text[1..]) {
        Some(end) => (Some(TokenKind::Quoted), end),
        None => (Some(TokenKind::Bad), text.len()),
    }
}

// The place behind the comment, for what follows its two opening bytes.
fn comment_end(mut text: &[u8]) -> Option<usize>
    requires { length text.now < 2 ^ 63 }
    ensures value { result ≡ spec.comment_end 2 text.entry.now }
    ensures within { IfSome result (λ end. (2 ≤ end) × (end ≤ length text.entry.now + 2)) }
{
    let mut at = 2;
    while let [b, rest @ ..] = text {
        if *b == b'*' && byte_at(rest, 0) == b'/' {
            return Some(at + 2);
        }
        at += 1;
        text = rest;
    }
    None
}

fn comment(text: &[u8]) -> Piece
    requires { 2 ≤ length text.now }
    ensures piece { result ≡ spec.comment text.now }
    ensures within { result.1 ≤ length text.now }
    ensures some { 0 < result.1 }
{
    match comment_end(&text[2..]) {
        Some(end) => (None, end),
        None => (Some(TokenKind::Bad), text.len()),
    }
}

fn symbol_bytes(b: u8, next: u8) -> usize
    ensures { result ≡ spec.symbol_len b next }
{
    match (b, next) {
        (b'<', b'>') | (b'<', b'=') | (b'!', b'=') | (b'>', b'=') | (b'|', b'|') => 2,
        (b'(' | b')' | b',' | b';' | b'.' | b'*' | b'+' | b'-' | b'/' | b'=' | b'<' | b'>', _) => 1,
        _ => 0,
    }
}

fn symbol(text: &[u8]) -> Piece
    requires { 0 < length text.now }
    ensures piece { result ≡ spec.symbol text.now }
    ensures within { result.1 ≤ length text.now }
    ensures some { 0 < result.1 }
{
    let n = symbol_bytes(text[0], byte_at(text, 1));
    if n == 0 {
        (Some(TokenKind::Bad), text.len())
    } else {
        (Some(TokenKind::Symbol), n)
    }
}

/// The piece at the front of the text.
#[tactic(auto, using(crate::proofs::Pieces::prefix_some), unfolding(crate::specs::Tokens::piece))]
pub fn piece(text: &[u8]) -> Piece
    requires { 0 < length text.now }
    ensures piece { result ≡ spec.piece text.now }
    ensures within { result.1 ≤ length text.now }
    ensures some { 0 < result.1 }
{
    let b = text[0];
    let next = byte_at(text, 1);
    if is_blank(b) {
        return (None, blank_bytes(text));
    }
    if b == b'-' && next == b'-' {
        return (None, line_bytes(text));
    }
    if b == b'/' && next == b'*' {
        return comment(text);
    }
    if b == b'\'' {
        return quoted(text);
    }
    if b.is_ascii_digit() {
        return number(text);
    }
    if is_word_byte(b) {
        return word(text);
    }
    symbol(text)
}

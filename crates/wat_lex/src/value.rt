//! What a token stands for.

ghost use Rattle.std.specs.Prelude.{◌≡◌, pos, false, string_bytes, IfOk};
ghost use Rattle.std.specs.Option.{option_map};
ghost use Rattle.wat_lex.specs.Values as spec;

use crate::piece::{NUMBER_LIMIT, value_of};
use crate::token::Token;
use std::alloc::Global;
use wat_list::NoMemory;

impl Token {
    /// The characters of the token, in the text that it was read from.
    pub fn text(self, text: &str) -> &str
        requires { spec.IsSlice text.now self }
        ensures bytes { result.now ≡ spec.token_bytes text.now self }
    {
        &text[self.from as usize..self.to as usize]
    }
}

/// The word in lower case: the name or the reserved word that it is.
pub fn lower_case(alloc: Global, word: &str) -> Result<String, NoMemory>
    ensures bytes { IfOk result (λ t. string_bytes t ≡ spec.lower_case word.now) }
{
    word.to_ascii_lowercase(alloc)
}

/// The value of a number, or None where it is above 9223372036854775807.
pub fn number_value(digits: &str) -> Option<i64>
    ensures value { result ≡ option_map pos (spec.number_value digits.now) }
{
    let value = value_of(digits.as_bytes());
    if value < NUMBER_LIMIT {
        Some(value as i64)
    } else {
        None
    }
}

fn unquoted(alloc: Global, mut text: &[u8]) -> Result<Vec<u8>, NoMemory>
    ensures { IfOk result (λ v. v.items ≡ spec.unquoted false text.entry.now) }
{
    let mut found = Vec::new(alloc);
    let mut after_quote = false;
    while let [b, rest @ ..] = text {
        if *b == b'\'' && !after_quote {
            after_quote = true;
        } else {
            found.push(*b)?;
            after_quote = false;
        }
        text = rest;
    }
    Ok(found)
}

#[tactic(auto, unfolding(crate::specs::Values::string_text))]
fn string_bytes_of(alloc: Global, token: &[u8]) -> Result<Vec<u8>, NoMemory>
    ensures { IfOk result (λ v. v.items ≡ spec.string_text token.now) }
{
    match token {
        [b, rest @ ..] if *b == b'\'' => unquoted(alloc, rest),
        _ => Ok(Vec::new(alloc)),
    }
}

/// The characters of a string: what stands between its quotes, with one quote for each two.
pub fn string_text(alloc: Global, token: &str) -> Result<String, NoMemory>
    ensures bytes { IfOk result (λ t. string_bytes t ≡ spec.string_text token.now) }
{
    let bytes = string_bytes_of(alloc, token.as_bytes())?;
    Ok(String::from_utf8(bytes).unwrap())
}

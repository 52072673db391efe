//! Laws of the definitions of tokens. Each function does nothing, and states a law.

ghost use Rattle.std.specs.Prelude.{◌≡◌, ℕ, List};
ghost use Rattle.wat_lex.specs.Rules.{IsCut, in_quotes};
ghost use Rattle.wat_lex.specs.Tokens.{tokens_of};
ghost use Rattle.wat_lex.specs.Values as values;
ghost use Rattle.wat_lex.specs.declared.token.Token.{Token};

use crate::token::MAX_TEXT;

/// The rules cut each text into one list of tokens: those that `tokens` gives.
pub fn texts_have_one_cut()
    ensures one { (text : List ℕ) (ts us : List Token) → IsCut 0 text ts → IsCut 0 text us → ts ≡ us }
    ensures tokens { (text : List ℕ) → IsCut 0 text (tokens_of text) }
{}

/// A text that is written as a string is read as itself.
pub fn strings_are_read_back()
    ensures { (text : List ℕ) → values.string_text (in_quotes text) ≡ text }
{}

/// The longest text has 16,777,216 bytes.
pub fn longest_text()
    ensures { MAX_TEXT ≡ 16777216 }
{}

ghost use Rattle.std.specs.Prelude.{◌≡◌, ◌≢◌, ℕ, [], ◌∷◌, false, Err, length, MatchOption};
ghost use Rattle.std.specs.List.{AllByRecursion};
ghost use Rattle.wat_grammar.specs.Phrase.{sees, read_token, read_within};
ghost use Rattle.wat_lex.specs.Values.{IsSlice};
ghost use Rattle.wat_lex.specs.Values as values;
ghost use Rattle.wat_syntax.specs.Lexeme.{lexemes_of};
ghost use Rattle.wat_syntax.specs.Sql as grammar;
ghost use Rattle.wat_syntax.specs.Sql.{sql, optional, level_value, switch_text};
ghost use Rattle.wat_cursor.specs.Reading.{Reads, ComesNext};
ghost use Rattle.wat_cursor.specs.Reading as spec;

use crate::fault::Fault;
use crate::kinds::{is_among, kind_of};
use std::alloc::Global;
use std::marker::Model;
use wat_ast::Name;
use wat_lex::{Token, lower_case, number_value, string_text};
use wat_syntax::Kind;
use wat_value::Text;

/// The tokens of a statement that are left to read.
///
/// What fails with Syntax leaves the cursor at the token that does not fit; what takes no memory fails with nothing else.
#[derive(Drop)]
pub struct Cursor<'a> {
    text: &'a str,
    tokens: &'a [Token],
    /// The kind of the first of them.
    next: Option<Kind>,
}

impl<'a> Model for Cursor<'a> {
    ghost use Rattle.std.specs.Prelude.{List};
    ghost use Rattle.wat_syntax.specs.Lexeme.{Lexeme, lexemes_of};
    ghost use Rattle.wat_cursor.specs.Reading.{IsAt};

    ghost Value = { List Lexeme };

    ghost view = { λ c. lexemes_of c.text.now c.tokens.now };

    ghost invariant = { λ c. IsAt c.text.now c.tokens.now c.next };
}

fn kind_ahead(text: &str, tokens: &[Token]) -> Option<Kind>
    requires { AllByRecursion (IsSlice text.now) tokens.now }
    ensures { result ≡ spec.kind_ahead (lexemes_of text.now tokens.now) }
{
    match tokens {
        [] => None,
        [next, ..] => Some(kind_of(next.kind, next.text(text))),
    }
}

impl<'a> Cursor<'a> {
    /// At the first of these tokens of the text.
    pub fn new(text: &'a str, tokens: &'a [Token]) -> Cursor<'a>
        requires { AllByRecursion (IsSlice text.now) tokens.now }
        ensures { result ≡ lexemes_of text.now tokens.now }
    {
        let next = kind_ahead(text, tokens);
        Cursor { text, tokens, next }
    }

    /// How many tokens are left.
    pub fn len(&self) -> usize
        ensures { result ≡ length self.now }
    {
        self.tokens.len()
    }

    /// Whether a token of the kind comes next.
    #[tactic(auto, using(crate::proofs::Ahead::sees_ahead))]
    pub fn sees(&self, kind: Kind) -> bool
        ensures { result ≡ sees sql (kind ∷ []) self.now }
    {
        match self.next {
            None => false,
            Some(next) => next == kind,
        }
    }

    /// Whether a token of one of these kinds comes next.
    #[tactic(auto, using(crate::proofs::Ahead::sees_ahead))]
    pub fn sees_any(&self, kinds: &[Kind]) -> bool
        ensures { result ≡ sees sql kinds.now self.now }
    {
        match self.next {
            None => false,
            Some(next) => is_among(next, kinds),
        }
    }

    /// Passes the next token.
    pub fn advance(&mut self)
        ensures { self.new ≡ spec.rest_of self.old }
    {
        if let [_, rest @ ..] = self.tokens {
            self.next = kind_ahead(self.text, rest);
            self.tokens = rest;
        }
    }

    // The characters of the next token, if it is of the kind.
    fn next_of(&self, kind: Kind) -> Option<&'a str>
        ensures { MatchOption result (sees sql (kind ∷ []) self.now ≡ false) (λ text. ComesNext kind text.now self.now) }
    {
        match self.tokens {
            [next, ..] if self.sees(kind) => Some(next.text(self.text)),
            _ => None,
        }
    }

    /// Whether the word or symbol comes next, which is then passed.
    #[tactic(auto, using(crate::proofs::Ahead::optional_is))]
    pub fn takes(&mut self, kind: Kind) -> bool
        ensures { read_within sql 0 (optional kind) self.old ≡ Ok (result, self.new) }
    {
        let found = self.sees(kind);
        if found {
            self.advance();
        }
        found
    }

    /// The word or symbol that is to come next.
    #[tactic(auto, using(crate::proofs::Ahead::word_is))]
    pub fn word(&mut self, kind: Kind) -> Result<(), Fault>
        ensures reads { Reads (read_within sql 0 (grammar.word kind) self.old) result self.new }
        ensures no_memory { result ≢ Err Fault.Memory }
    {
        if !self.sees(kind) {
            return Err(Fault::Syntax);
        }
        self.advance();
        Ok(())
    }

    /// What the word or symbol stands for that is to come next.
    #[tactic(auto, using(crate::proofs::Ahead::word_is))]
    pub fn sign<T: Copy>(&mut self, kind: Kind, value: T) -> Result<T, Fault>
        ensures reads { Reads (read_within sql 0 (grammar.sign kind value) self.old) result self.new }
        ensures no_memory { result ≢ Err Fault.Memory }
    {
        if !self.sees(kind) {
            return Err(Fault::Syntax);
        }
        self.advance();
        Ok(value)
    }

    /// The name that is to come next, in lower case. Without memory the cursor stays, as with the two calls on strings.
    pub fn name(&mut self, alloc: Global) -> Result<Name, Fault>
        ensures reads { Reads (read_within sql 0 grammar.name self.old) result self.new }
        ensures kept { result ≡ Err Fault.Memory → self.new ≡ self.old }
    {
        let Some(word) = self.next_of(Kind::Name) else {
            return Err(Fault::Syntax);
        };
        let text = lower_case(alloc, word)?;
        let Some(name) = Name::of(text) else {
            return Err(Fault::Syntax);
        };
        self.advance();
        Ok(name)
    }

    /// The characters of the string that is to come next.
    pub fn quoted(&mut self, alloc: Global) -> Result<Text, Fault>
        ensures reads { Reads (read_within sql 0 grammar.quoted self.old) result self.new }
        ensures kept { result ≡ Err Fault.Memory → self.new ≡ self.old }
    {
        let Some(token) = self.next_of(Kind::Quoted) else {
            return Err(Fault::Syntax);
        };
        let text = string_text(alloc, token)?;
        let text = Text::of(alloc, text.as_str())?;
        self.advance();
        Ok(text)
    }

    /// The value of the number that is to come next.
    pub fn number(&mut self) -> Result<i64, Fault>
        ensures reads { Reads (read_within sql 0 grammar.number self.old) result self.new }
        ensures no_memory { result ≢ Err Fault.Memory }
    {
        let Some(digits) = self.next_of(Kind::Number) else {
            return Err(Fault::Syntax);
        };
        let Some(value) = number_value(digits) else {
            return Err(Fault::Syntax);
        };
        self.advance();
        Ok(value)
    }

    /// The number that is to come next, from 0 to 3.
    pub fn level(&mut self) -> Result<u8, Fault>
        ensures reads { Reads (read_token sql Kind.Number (λ x. level_value x.number) self.old) result self.new }
        ensures no_memory { result ≢ Err Fault.Memory }
    {
        let Some(digits) = self.next_of(Kind::Number) else {
            return Err(Fault::Syntax);
        };
        let Some(level) = level_of(digits) else {
            return Err(Fault::Syntax);
        };
        self.advance();
        Ok(level)
    }

    /// The string ON or OFF, in any case, that is to come next.
    pub fn quoted_switch(&mut self, alloc: Global) -> Result<bool, Fault>
        ensures reads { Reads (read_token sql Kind.Quoted (λ x. switch_text x.text) self.old) result self.new }
        ensures kept { result ≡ Err Fault.Memory → self.new ≡ self.old }
    {
        let Some(token) = self.next_of(Kind::Quoted) else {
            return Err(Fault::Syntax);
        };
        let text = string_text(alloc, token)?;
        let Some(is_on) = switch_of(text.as_str()) else {
            return Err(Fault::Syntax);
        };
        self.advance();
        Ok(is_on)
    }
}

fn level_of(digits: &str) -> Option<u8>
    ensures { result ≡ level_value (values.number_value digits.now) }
{
    match number_value(digits) {
        Some(0) => Some(0),
        Some(1) => Some(1),
        Some(2) => Some(2),
        Some(3) => Some(3),
        _ => None,
    }
}

fn switch_of(text: &str) -> Option<bool>
    ensures { result ≡ switch_text text.now }
{
    if "ON".eq_ignore_ascii_case(text) {
        Some(true)
    } else if "OFF".eq_ignore_ascii_case(text) {
        Some(false)
    } else {
        None
    }
}

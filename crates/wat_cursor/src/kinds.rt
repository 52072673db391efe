ghost use Rattle.std.specs.Prelude.{◌≡◌, slice_index};
ghost use Rattle.std.specs.List.{list_any};
ghost use Rattle.wat_syntax.specs.Lexeme as spec;
ghost use Rattle.wat_lex.specs.declared.token.TokenKind.TheVariants.{Word};

use wat_lex::TokenKind;
use wat_syntax::Kind;
use wat_word::keyword_of;

fn byte_at(text: &[u8], at: usize) -> u8
    ensures { result ≡ slice_index text.now at }
{
    if at < text.len() { text[at] } else { 0 }
}

fn symbol_kind(b: u8, next: u8) -> Kind
    ensures { result ≡ spec.symbol_kind b next }
{
    match (b, next) {
        (b'(', _) => Kind::Open,
        (b')', _) => Kind::Close,
        (b',', _) => Kind::Comma,
        (b';', _) => Kind::Semicolon,
        (b'.', _) => Kind::Dot,
        (b'*', _) => Kind::Star,
        (b'+', _) => Kind::Plus,
        (b'-', _) => Kind::Minus,
        (b'/', _) => Kind::Slash,
        (b'=', _) => Kind::Equal,
        (b'<', b'>') => Kind::Unequal,
        (b'<', b'=') => Kind::AtMost,
        (b'<', _) => Kind::Less,
        (b'>', b'=') => Kind::AtLeast,
        (b'>', _) => Kind::Greater,
        (b'!', _) => Kind::Unequal,
        (b'|', _) => Kind::Concat,
        _ => Kind::Bad,
    }
}

fn word_kind(word: &str) -> Kind
    ensures { result ≡ spec.kind_of Word word.now }
{
    match keyword_of(word) {
        None => Kind::Name,
        Some(word) => Kind::from(word),
    }
}

/// The kind of a token of these characters.
pub fn kind_of(kind: TokenKind, text: &str) -> Kind
    ensures { result ≡ spec.kind_of kind text.now }
{
    match kind {
        TokenKind::Word => word_kind(text),
        TokenKind::Number => Kind::Number,
        TokenKind::Quoted => Kind::Quoted,
        TokenKind::Symbol => {
            let bytes = text.as_bytes();
            symbol_kind(byte_at(bytes, 0), byte_at(bytes, 1))
        }
        TokenKind::Bad => Kind::Bad,
    }
}

/// Whether the kind is one of these.
pub fn is_among(kind: Kind, kinds: &[Kind]) -> bool
    ensures { result ≡ list_any (spec.same_kind kind) kinds.now }
{
    kinds.iter().any(|each| kind == *each)
}

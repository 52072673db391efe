ghost use Rattle.std.specs.Prelude.{◌≡◌, slice_index};
ghost use Rattle.std.specs.List.{list_all};
ghost use Rattle.wat_word.specs.Words as spec;

use crate::keyword::keyword_of;

/// The most bytes that a word has.
pub const MAX_WORD: usize = 128;

/// Whether a word may begin with the byte: a letter, or `_`.
pub fn begins_word(b: u8) -> bool
    ensures { result ≡ spec.begins_word b }
{
    b.is_ascii_alphabetic() || b == b'_'
}

/// Whether a word may go on with the byte: a letter, a digit, or `_`.
pub fn is_word_byte(b: u8) -> bool
    ensures { result ≡ spec.is_word_byte b }
{
    b.is_ascii_alphanumeric() || b == b'_'
}

fn begins_as_word(text: &[u8]) -> bool
    ensures { result ≡ spec.begins_word (slice_index text.now 0) }
{
    match text {
        [] => false,
        [first, ..] => begins_word(*first),
    }
}

fn are_word_bytes(text: &[u8]) -> bool
    ensures { result ≡ list_all spec.is_word_byte text.now }
{
    text.iter().all(|b| is_word_byte(*b))
}

/// Whether the text is a word: letters, digits and `_`, of which the first is no digit, and at
/// most 128 bytes in all.
pub fn is_word(text: &str) -> bool
    ensures { result ≡ spec.is_word text.now }
{
    let bytes = text.as_bytes();
    bytes.len() <= MAX_WORD && begins_as_word(bytes) && are_word_bytes(bytes)
}

fn is_lower(text: &str) -> bool
    ensures { result ≡ spec.is_lower text.now }
{
    text.as_bytes().iter().all(|b| !b.is_ascii_uppercase())
}

/// Whether the text is a name: a word in lower case that is not reserved.
pub fn is_name(text: &str) -> bool
    ensures { result ≡ spec.is_name text.now }
{
    is_word(text) && is_lower(text) && keyword_of(text).is_none()
}

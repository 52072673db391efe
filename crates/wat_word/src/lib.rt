//! Words, the reserved words among them, and names.
#![tactic(auto)]

mod keyword;
mod word;

pub use keyword::{Keyword, keyword_of, reserved_laws};
pub use word::{MAX_WORD, begins_word, is_name, is_word, is_word_byte};

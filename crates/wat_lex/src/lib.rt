//! The tokens of a text, and what they stand for.
#![tactic(auto)]

mod law;
mod part;
mod piece;
mod token;
mod value;

pub use law::{longest_text, strings_are_read_back, texts_have_one_cut};
pub use part::{Part, tokens_between};
pub use token::{MAX_TEXT, Token, TokenKind, Tokens, tokens};
pub use value::{lower_case, number_value, string_text};

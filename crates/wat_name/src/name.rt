ghost use Rattle.std.specs.Prelude.{◌≡◌, true, false, IfOk, IfSome, MatchOption, string_bytes};
ghost use Rattle.wat_word.specs.Words.{is_name};

use std::alloc::Global;
use std::marker::Model;
use wat_list::{Copied, NoMemory};
use wat_word::is_name;

/// A name: a word in lower case that is not reserved. Contracts see its bytes.
#[derive(Debug, Drop)]
pub struct Name {
    text: String,
}

impl Model for Name {
    ghost use Rattle.std.specs.Prelude.{◌≡◌, List, ℕ, true, string_bytes};
    ghost use Rattle.wat_word.specs.Words.{is_name};

    ghost Value = { List ℕ };

    ghost view = { λ n. string_bytes n.text };

    ghost invariant = { λ n. is_name (string_bytes n.text) ≡ true };
}

impl Name {
    /// The name of these characters, or None where they are no name: a capital is in none.
    pub fn new(alloc: Global, text: &str) -> Result<Option<Self>, NoMemory>
        ensures none { IfOk result (λ name. MatchOption name (is_name text.now ≡ false) (λ _. is_name text.now ≡ true)) }
        ensures same { IfOk result (λ name. IfSome name (λ n. n ≡ text.now)) }
    {
        if !is_name(text) {
            return Ok(None);
        }
        let text = String::from_str(alloc, text)?;
        Ok(Some(Name { text }))
    }

    /// The name that the text is, or None where it is no name. It takes no memory.
    pub fn of(text: String) -> Option<Self>
        ensures none { MatchOption result (is_name (string_bytes text) ≡ false) (λ _. is_name (string_bytes text) ≡ true) }
        ensures same { IfSome result (λ n. n ≡ string_bytes text) }
    {
        if is_name(text.as_str()) {
            Some(Name { text })
        } else {
            None
        }
    }

    pub fn as_str(&self) -> &str
        ensures text { result.now ≡ self.now }
        ensures name { is_name self.now ≡ true }
    {
        self.text.as_str()
    }
}

impl Copied for Name {
    fn copy(&self, alloc: Global) -> Result<Self, NoMemory> {
        let text = String::from_str(alloc, self.as_str())?;
        Ok(Name { text })
    }
}

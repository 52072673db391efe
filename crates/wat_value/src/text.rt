ghost use Rattle.std.specs.Prelude.{◌≡◌, ◌++◌, IfOk};
ghost use Rattle.std.specs.Cmp.{partial_equiv_from_equiv};
ghost use Rattle.std.specs.Cmp.Lexicographic.{bytes_decides, nat_list_eq_equiv};
ghost use Rattle.std.specs.Hash as fed;
ghost use Rattle.std.specs.Str.{bytes_eq};
ghost use Rattle.std.proofs.Common.{ap};

use std::alloc::Global;
use std::hash::{Hash, Hasher};
use std::marker::Model;
use wat_list::{Copied, NoMemory};

/// A text. Contracts see its bytes, which are UTF-8.
#[derive(Debug, Drop)]
pub struct Text {
    text: String,
}

impl Model for Text {
    ghost use Rattle.std.specs.Prelude.{List, ℕ, string_bytes};

    ghost Value = { List ℕ };

    ghost view = { λ t. string_bytes t.text };
}

impl Text {
    /// A text of the same characters.
    pub fn of(alloc: Global, text: &str) -> Result<Self, NoMemory>
        ensures { IfOk result (λ t. t ≡ text.now) }
    {
        let text = String::from_str(alloc, text)?;
        Ok(Text { text })
    }

    /// The one text behind the other.
    pub fn joined(alloc: Global, front: &str, back: &str) -> Result<Self, NoMemory>
        ensures { IfOk result (λ t. t ≡ front.now ++ back.now) }
    {
        let mut text = String::from_str(alloc, front)?;
        text.push_str(back)?;
        Ok(Text { text })
    }

    pub fn as_str(&self) -> &str
        ensures { result.now ≡ self.now }
    {
        self.text.as_str()
    }
}

impl Copied for Text {
    fn copy(&self, alloc: Global) -> Result<Self, NoMemory> {
        Text::of(alloc, self.as_str())
    }
}

impl PartialEq for Text {
    ghost eq = { bytes_eq };

    ghost laws = { partial_equiv_from_equiv nat_list_eq_equiv };

    fn eq(&self, other: &Text) -> bool {
        self.as_str() == other.as_str()
    }
}

impl Eq for Text {
    ghost laws = { nat_list_eq_equiv };
}

impl Hash for Text {
    ghost hash_input = { fed.str };

    ghost respects_eq = { λ a b same. ap fed.str ((bytes_decides a b).0 same) };

    fn hash<H: Hasher>(&self, state: &mut H) {
        self.as_str().hash(state);
    }
}

ghost use Rattle.std.specs.Prelude.{◌≡◌, IfOk};

use std::alloc::Global;
use std::marker::Model;
use wat_list::{Copied, Items, NoMemory};

/// The text that a connection is asked. Contracts see its bytes, which are UTF-8.
#[derive(Debug, Drop)]
pub struct Script {
    text: String,
}

impl Model for Script {
    ghost use Rattle.std.specs.Prelude.{List, ℕ, string_bytes};

    ghost Value = { List ℕ };

    ghost view = { λ script. string_bytes script.text };
}

impl Script {
    /// A script of the same text.
    pub fn of(alloc: Global, text: &str) -> Result<Self, NoMemory>
        ensures { IfOk result (λ script. script ≡ text.now) }
    {
        let text = String::from_str(alloc, text)?;
        Ok(Script { text })
    }

    /// The text.
    pub fn as_str(&self) -> &str
        ensures { result.now ≡ self.now }
    {
        self.text.as_str()
    }
}

/// A script of that text, which takes no memory.
impl From<String> for Script {
    ghost use Rattle.std.specs.Prelude.{◌≡◌, string_bytes};

    ghost from_gives = { λ text script. script ≡ string_bytes text };

    fn from(text: String) -> Self {
        Script { text }
    }
}

impl Copied for Script {
    fn copy(&self, alloc: Global) -> Result<Self, NoMemory> {
        Script::of(alloc, self.as_str())
    }
}

/// The scripts of the connections, from connection 1 on.
pub type ScriptList = Items<Script>;

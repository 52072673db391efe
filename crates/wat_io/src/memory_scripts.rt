ghost use Rattle.std.specs.Prelude.{◌≡◌, ◌==◌, ◌↔◌, ℕ, [], ◌∷◌, ◌++◌, Some, length, position, string_bytes, IsTrue};
ghost use Rattle.std.specs.Str.{bytes_eq};
ghost use Rattle.wat_io.specs.Scripts.{text_under, Reads};
ghost use Rattle.wat_faults.specs.Faults.{counted, HasCause};

use crate::asked::Asked;
use crate::calls::Calls;
use crate::scripts::{ScriptError, Scripts};

/// Scripts in memory, of which the reads with these numbers fail.
#[derive(Drop)]
pub struct MemoryScripts {
    names: Vec<String>,
    texts: Vec<Vec<u8>>,
    asked: Asked,
    reads: Calls,
    ghost paired: { length texts.items ≡ length names.items },
}

/// The place of the first such name.
fn place_of(names: &[String], name: &str) -> Option<usize>
    ensures { result ≡ position (λ n. bytes_eq (string_bytes n) name.now) names.now }
{
    names.iter().position(|n| n.as_str() == name)
}

impl MemoryScripts {
    ghost use Rattle.wat_io.specs.MemoryScripts.{texts_of, asked_of, fails_of, reads_of, is_to_fail, faults_of};

    /// The first text stands under the first name, and so on; of equal names the first counts. `fails` has the
    /// numbers of the reads that fail, from 0.
    pub fn new(names: Vec<String>, texts: Vec<Vec<u8>>, fails: Vec<u64>) -> Self
        requires { length texts.items ≡ length names.items }
        ensures texts { texts_of result ≡ text_under string_bytes (λ text. text.items) names.items texts.items }
        ensures asked { asked_of result ≡ [] }
        ensures fails { fails_of result ≡ fails.items }
        ensures reads { reads_of result ≡ 0 }
        ensures faults { faults_of result ≡ 0 }
    {
        MemoryScripts {
            names,
            texts,
            asked: Asked::new(),
            reads: Calls::new(fails),
        }
    }
}

impl Scripts for MemoryScripts {
    ghost use Rattle.wat_io.specs.MemoryScripts.{texts_of, asked_of, fails_of, reads_of, is_to_fail, faults_of};

    ghost texts = { λ scripts. Some (texts_of scripts) };

    ghost asked = { asked_of };

    ghost faults = { faults_of };

    fn read(&mut self, name: &str, most: usize, into: &mut Vec<u8>) -> Result<(), ScriptError>
        ensures read { Reads (Some (texts_of self.old)) name.now most into.old.items into.new.items result }
        ensures texts { texts_of self.new ≡ texts_of self.old }
        ensures asked { asked_of self.new ≡ asked_of self.old ++ name.now ∷ [] }
        ensures faults { HasCause (faults_of self.old) (faults_of self.new) (result ≡ Err ScriptError.Failed) }
        ensures absent { result ≡ Err ScriptError.Absent → faults_of self.new ≡ faults_of self.old }

        // The reads that fail are those that were listed, and each read counts as one.
        ensures listed { IsTrue (is_to_fail self.old) ↔ (result ≡ Err ScriptError.Failed) }
        ensures fails { fails_of self.new ≡ fails_of self.old }
        ensures reads { reads_of self.new ≡ counted (reads_of self.old) }
    {
        self.asked.note(name.as_bytes());
        if self.reads.begin() {
            self.reads.fail();
            return Err(ScriptError::Failed);
        }
        let Some(place) = place_of(self.names.as_slice(), name) else {
            return Err(ScriptError::Absent);
        };
        let Some(text) = self.texts.get(place) else {
            unreachable!();
        };
        let len = text.len().min(most);
        match into.extend_from_slice(&text[..len]) {
            Ok(()) => Ok(()),
            Err(_) => Err(ScriptError::Memory),
        }
    }
}

ghost use Rattle.std.specs.Prelude.{◌≡◌, ℕ, List, [], ◌∷◌, ◌++◌, Option};
ghost use Rattle.wat_faults.specs.Faults.{HasCause};
ghost use Rattle.wat_io.specs.Scripts.{Texts, Reads};

/// Why a script was not read.
#[derive(Clone, Copy, Debug, PartialEq, Eq)]
pub enum ScriptError {
    /// No text stands under the name.
    Absent,
    /// The scripts failed, and counted the fault.
    Failed,
    /// Memory ran out.
    Memory,
}

/// Texts under names.
pub trait Scripts {
    /// The text under each name, where this is told.
    ghost texts: { Self → Option Texts };

    /// The names that were asked for, in order, each as often as it was asked for.
    ghost asked: { Self → List (List ℕ) };

    /// How often a read has failed.
    ghost faults: { Self → ℕ };

    /// Appends the text under the name, or its first `most` bytes where it is longer. An error appends nothing.
    /// No read changes a name or a text.
    fn read(&mut self, name: &str, most: usize, into: &mut Vec<u8>) -> Result<(), ScriptError>
        ensures read { Reads (texts self.old) name.now most into.old.items into.new.items result }
        ensures texts { texts self.new ≡ texts self.old }

        // The name was asked for, whatever the answer is.
        ensures asked { asked self.new ≡ asked self.old ++ name.now ∷ [] }

        // A fault is counted exactly where a read is Failed, and so none where the name is not there.
        ensures faults { HasCause (faults self.old) (faults self.new) (result ≡ Err ScriptError.Failed) }
        ensures absent { result ≡ Err ScriptError.Absent → faults self.new ≡ faults self.old };
}

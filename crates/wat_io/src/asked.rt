ghost use Rattle.std.specs.Prelude.{◌≡◌, ℕ, List, [], ◌∷◌, ◌++◌};
ghost use Rattle.std.specs.Borrow.{ftrue};

use std::marker::{Model, PhantomData};

/// The names that were asked for, in order, each as often as it was asked for. They stand in contracts alone: a value
/// takes no memory, and its calls do nothing while the program runs.
#[derive(Drop)]
pub struct Asked {
    marker: PhantomData<u8>,
    pub ghost names: { List (List ℕ) },
}

impl Model for Asked {
    ghost also_owns = { λ _. ftrue };
}

impl Asked {
    /// No name was asked for yet.
    pub fn new() -> Self
        ensures { result.names ≡ [] }
    {
        Asked {
            marker: PhantomData,
        }
    }

    /// Notes that this name was asked for.
    pub fn note(&mut self, _name: &[u8])
        ensures { self.new.names ≡ self.old.names ++ _name.now ∷ [] }
    {}
}

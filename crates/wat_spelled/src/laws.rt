ghost use Rattle.std.specs.Prelude.{◌≡◌, ℕ, List};
ghost use Rattle.wat_schema.specs.Catalog.{Catalog};
ghost use Rattle.wat_replay.specs.State.{Lists};
ghost use Rattle.wat_spelled.specs.Schema.{SpellsSchema};
ghost use Rattle.wat_spelled.specs.Changes.{SpellsLists, TellsLists};

/// A payload spells one schema, where the next table number is told beside it; and one list of changes for each connection.
pub fn spelled_laws()
    ensures schema { (payload : List ℕ) (a b : Catalog) → SpellsSchema payload a → SpellsSchema payload b → a.next ≡ b.next → a ≡ b }
    ensures lists { (payload : List ℕ) (a b : Lists) → SpellsLists payload a → SpellsLists payload b → a ≡ b }
    ensures told { (first : ℕ) (payload : List ℕ) (a b : Lists) → TellsLists first payload a → TellsLists first payload b → a ≡ b }
{}

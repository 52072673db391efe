use std::alloc::AllocError;

/// Why no schema is made of a payload.
pub enum SchemaRefusal {
    /// The payload spells no tables and indexes in the order of their numbers, below the next table number.
    Unspelled,
    /// It spells some, and one of them breaks a rule of tables, of indexes or of names.
    BreaksRule,
    /// Memory is wanted.
    Memory,
}

impl From<AllocError> for SchemaRefusal {
    ghost use Rattle.std.specs.Prelude.{◌≡◌};
    ghost use Rattle.wat_catalog_chain.specs.declared.refusal.SchemaRefusal.TheVariants.{Memory};

    ghost from_gives = { λ _ e. e ≡ Memory };

    fn from(_: AllocError) -> SchemaRefusal {
        SchemaRefusal::Memory
    }
}

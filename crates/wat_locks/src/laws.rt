//! Laws of the named conflict, of conflicts, and of the order of locks.
ghost use Rattle.std.specs.Prelude.{◌≡◌, ◌↔◌, ℕ, List};
ghost use Rattle.std.specs.declared.cmp.Ordering.TheVariants.{Equal};
ghost use Rattle.std.specs.Cmp.{IsTotalOrder};
ghost use Rattle.wat_locks.specs.declared.lock.Lock.{Lock};
ghost use Rattle.wat_locks.specs.declared.held.Held.{Held};
ghost use Rattle.wat_locks.specs.declared.held.Against.{Against};
ghost use Rattle.wat_locks.specs.declared.want.Want.{Want};
ghost use Rattle.wat_locks.specs.Conflict.{Conflicts};
ghost use Rattle.wat_locks.specs.Order.{lock_cmp};
ghost use Rattle.wat_locks.specs.Held.{AreFree, Named};

/// At most one conflict is named, and none where each wanted lock is free.
pub fn named_laws()
    ensures once { (held : List Held) (conn : ℕ) (wants : List Want) (a b : Against) → Named held conn wants a → Named held conn wants b → a ≡ b }
    ensures in_the_way { (held : List Held) (conn : ℕ) (wants : List Want) (a : Against) → Named held conn wants a → AreFree held conn wants → ⊥ }
{}

/// The order of locks is total, and only the same are level in it. Conflict goes both ways.
pub fn lock_laws()
    ensures total { IsTotalOrder lock_cmp }
    ensures level { (a b : Lock) → (lock_cmp a b ≡ Equal) ↔ (a ≡ b) }
    ensures both_ways { (a b : Lock) → Conflicts a b → Conflicts b a }
{}

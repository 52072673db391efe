//! The locking protocol: what the steps of statements ask is what the law of isolation asks, and what is granted may happen there. Laws, and no code.
#![tactic(auto)]

ghost use Rattle.std.specs.Prelude.{◌≡◌, ℕ, Option, Some, List};
ghost use Rattle.wat_list.specs.Has.{Has};
ghost use Rattle.wat_value.specs.declared.value.Value.{Value};
ghost use Rattle.wat_value.specs.declared.change.Change.{Change};
ghost use Rattle.wat_value.specs.Changes.{RowName, changed_row, row_after};
ghost use Rattle.wat_schema.specs.Catalog.{Catalog, Listing};
ghost use Rattle.wat_isolation.specs.Rows.{Scheme, Tables, Cut};
ghost use Rattle.wat_isolation.specs.Logs.{Scan, Item};
ghost use Rattle.wat_isolation.specs.Kept.{Guarded};
ghost use Rattle.wat_isolation.specs.Machine as machine;
ghost use Rattle.wat_isolation.specs.Sql.{sql, IndexName};
ghost use Rattle.wat_isolation.specs.Naming.{scheme_of};
ghost use Rattle.wat_locks.specs.declared.want.Want.{Want};
ghost use Rattle.wat_locks.specs.declared.held.Held.{Held};
ghost use Rattle.wat_locks.specs.Held.{AreFree, Adds, Frees};
ghost use Rattle.wat_level.specs.declared.change.Spot.{Spot};
ghost use Rattle.wat_level.specs.declared.visit.Visit.{Visit};
ghost use Rattle.wat_level.specs.Change.{change_wants};
ghost use Rattle.wat_level.specs.Visit.{visit_wants};
ghost use Rattle.wat_protocol.specs.Locked.{long_locks, HasWanted, AreHeld, event_locks};
ghost use Rattle.wat_protocol.specs.Moves.{IsChangeOf, AreSpots, next_in};
ghost use Rattle.wat_protocol.specs.Visited.{IsVisitOf, IsVisitPast};
ghost use Rattle.wat_protocol.specs.Finds.{FindsPosition, FindsEnd};
ghost use Rattle.wat_protocol.specs.Guarding.{IsGuarded};

/// What is wanted of a change, and of each visit at level 3, has all locks that the law of isolation asks of it. This is said of
/// any list of locks that has all that is wanted: what `ask` was given is one, all that the connection holds another.
pub fn wants_suffice()
    ensures change { (cat : Catalog) (s : machine.State sql) (c : ℕ) (l : Listing) (change : Change) (spots : List Spot) (locks : List (machine.Lock sql))
        → IsChangeOf s cat l change → AreSpots s c l change spots → HasWanted (change_wants l.def change spots) locks
        → machine.AsksForChange sql s c (changed_row l.def change) (row_after change) locks (next_in spots) }
    // At a position of the interval, whether a row stands there or the position is vacant: Read on the row, and Phantom on the position.
    ensures position { (cat : Catalog) (s : machine.State sql) (i : IndexName) (key : List Value) (visit : Visit) (locks : List (machine.Lock sql))
        → s.scheme ≡ scheme_of cat → IsVisitOf s i key visit → HasWanted (visit_wants 3 visit) locks
        → Has (machine.Lock.Read (s.scheme.row_of i key)) locks × Has (machine.Lock.Phantom i (machine.Place.At key)) locks }
    // At the first position past the interval, or at the end: Phantom there.
    ensures past { (i : IndexName) (q : machine.Place sql) (visit : Visit) (locks : List (machine.Lock sql))
        → IsVisitPast i q visit → HasWanted (visit_wants 3 visit) locks
        → Has (machine.Lock.Phantom i q) locks }
{}

/// A step whose wants are free may happen in the law, with the locks that it keeps to the end of the transaction.
pub fn granted_steps_may_happen()
    ensures change { (cat : Catalog) (s : machine.State sql) (held : List Held) (c : ℕ) (l : Listing) (change : Change) (spots : List Spot)
        → AreHeld s held → IsChangeOf s cat l change → AreSpots s c l change spots → AreFree held c (change_wants l.def change spots)
        → machine.May sql s (machine.Event.Change c (changed_row l.def change) (row_after change) (long_locks (change_wants l.def change spots)) (next_in spots)) }
    ensures position { (cat : Catalog) (s : machine.State sql) (held : List Held) (c : ℕ) (at : Scan sql) (rest : List (Item sql)) (key : List Value) (found : List (List Value × List Value)) (visit : Visit)
        → AreHeld s held → s.scheme ≡ scheme_of cat → FindsPosition s c at rest key found → IsVisitOf s at.index key visit → AreFree held c (visit_wants 3 visit)
        → machine.May sql s (machine.Event.Visit c at rest key found (long_locks (visit_wants 3 visit))) }
    ensures past { (s : machine.State sql) (held : List Held) (c : ℕ) (at : Scan sql) (rest : List (Item sql)) (hi : Cut sql) (q : machine.Place sql) (visit : Visit)
        → AreHeld s held → FindsEnd s c at rest hi q → IsVisitPast at.index q visit → AreFree held c (visit_wants 3 visit)
        → machine.May sql s (machine.Event.Past c at rest hi q (long_locks (visit_wants 3 visit))) }
    // An INSERT whose row stands already asks as a change does, and looks the row up.
    ensures look { (s : machine.State sql) (held : List Held) (c : ℕ) (l : Listing) (change : Change) (spots : List Spot)
        → AreHeld s held → AreFree held c (change_wants l.def change spots)
        → machine.May sql s (machine.Event.Look c (changed_row l.def change) (long_locks (change_wants l.def change spots))) }
    // A row that is read at a lower level: the law makes nothing of what was read, and keeps the locks.
    ensures peek { (s : machine.State sql) (held : List Held) (c : ℕ) (r : RowName) (wants : List Want)
        → AreHeld s held → AreFree held c wants → machine.May sql s (machine.Event.Peek c r (long_locks wants)) }
{}

/// The entries of the lock table go on to stand for the locks of the law: when a step is granted, when short locks are freed, and
/// when a transaction ends. So a scan that is guarded in the law is guarded by long locks of the table.
pub fn locks_stay_held()
    ensures begins { (g : Scheme sql) (base : Tables sql) (held : List Held) → AreHeld (machine.start sql g base) held }
    ensures granted { (s : machine.State sql) (old new : List Held) (c : ℕ) (wants : List Want) (e : machine.Event sql)
        → AreHeld s old → Adds old new c wants → machine.IsBy sql e c → event_locks e ≡ long_locks wants → AreHeld (machine.happens sql s e) new }
    ensures freed { (s : machine.State sql) (old new : List Held) (c scan : ℕ) → AreHeld s old → Frees old new (λ h. (h.conn ≡ c) × (h.short ≡ Some scan)) → AreHeld s new }
    ensures ended { (s : machine.State sql) (old new : List Held) (c : ℕ)
        → AreHeld s old → Frees old new (λ h. h.conn ≡ c) → AreHeld (machine.happens sql s (machine.Event.Commit c)) new × AreHeld (machine.happens sql s (machine.Event.Leave c)) new }
    ensures guards { (s : machine.State sql) (held : List Held) (c : ℕ) (at : Scan sql) → AreHeld s held → Guarded sql s c at → IsGuarded s held c at }
{}

//! Laws of what a change wants.
ghost use Rattle.std.specs.Prelude.{◌≡◌, ◌↔◌, ℕ, List, Some, None, true};
ghost use Rattle.wat_list.specs.Has.{Has};
ghost use Rattle.wat_value.specs.declared.value.Value.{Value};
ghost use Rattle.wat_value.specs.declared.definition.TableDef.{TableDef};
ghost use Rattle.wat_value.specs.declared.change.Change.{Change};
ghost use Rattle.wat_value.specs.declared.place.Place.TheVariants.{At};
ghost use Rattle.wat_value.specs.Changes.{changed_row, changed_table};
ghost use Rattle.wat_locks.specs.declared.lock.Lock.{Lock};
ghost use Rattle.wat_locks.specs.declared.want.Want.{Want};
ghost use Rattle.wat_level.specs.declared.change.Spot.{Spot};
ghost use Rattle.wat_level.specs.Wanted.{IsWanted, IsRising, write_lock, phantom_lock, anti_phantom_lock};
ghost use Rattle.wat_level.specs.Change.{asked_wants, change_wants};

/// What a change wants is what is asked and nothing else, in the order of locks, each lock once, and all of it to the end of the transaction.
pub fn order_laws()
    ensures all { (def : TableDef) (change : Change) (spots : List Spot) (lock : Lock) → IsWanted lock (change_wants def change spots) ↔ IsWanted lock (asked_wants def change spots) }
    ensures rising { (def : TableDef) (change : Change) (spots : List Spot) → IsRising (change_wants def change spots) }
    ensures long { (def : TableDef) (change : Change) (spots : List Spot) (want : Want) → Has want (change_wants def change spots) → want.short ≡ None }
{}

/// What a change must ask: Write on its row, and in each index AntiPhantom on the key that it
/// leaves, on the key that it comes to and on that one's successor, and the inherited Phantom.
pub fn change_laws()
    ensures row { (def : TableDef) (change : Change) (spots : List Spot)
        → IsWanted (write_lock (changed_table change) (changed_row def change).key) (change_wants def change spots) }
    ensures leaves { (def : TableDef) (change : Change) (spots : List Spot) (spot : Spot) (key : List Value) → Has spot spots → spot.leaves ≡ Some key
        → IsWanted (anti_phantom_lock (changed_table change) spot.index (At key)) (change_wants def change spots) }
    ensures comes { (def : TableDef) (change : Change) (spots : List Spot) (spot : Spot) (key : List Value) → Has spot spots → spot.enters ≡ Some key
        → IsWanted (anti_phantom_lock (changed_table change) spot.index (At key)) (change_wants def change spots) }
    ensures past { (def : TableDef) (change : Change) (spots : List Spot) (spot : Spot) (key : List Value) → Has spot spots → spot.enters ≡ Some key
        → IsWanted (anti_phantom_lock (changed_table change) spot.index spot.successor) (change_wants def change spots) }
    ensures inherits { (def : TableDef) (change : Change) (spots : List Spot) (spot : Spot) (key : List Value) → Has spot spots → spot.enters ≡ Some key → spot.inherits ≡ true
        → IsWanted (phantom_lock (changed_table change) spot.index (At key)) (change_wants def change spots) }
{}

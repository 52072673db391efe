//! Row locks with phantom and anti-phantom locks give serial answers: laws over every list of events, and no code.
#![tactic(auto)]

ghost use Rattle.std.specs.Prelude.{◌≡◌, ◌↔◌, ◌⊎◌, ℕ, Bool, true, Option, Some, None, List, [], ◌∷◌, ◌++◌};
ghost use Rattle.wat_isolation.specs.Rows.{Scheme, Tables, IsLive, Within, key_at};
ghost use Rattle.wat_isolation.specs.Logs.{Item.Did, Scan, Alone, After, Serial, Scanned};
ghost use Rattle.wat_isolation.specs.Machine.{Place, Place.At, Lock, Lock.Read, Lock.Phantom, Event, Event.Begin_scan, Event.Visit, Event.Past, Event.Change, Event.Undo, IsBy, IsPos, May, happens, start, run, Runs};
ghost use Rattle.wat_isolation.specs.Kept.{Guarded, SameAt};
ghost use Rattle.wat_isolation.specs.Rollback.{rollback};
ghost use Rattle.wat_isolation.specs.Vacant.{VacantKey, NotesAll, IsVacantIn};
ghost use Rattle.wat_isolation.specs.Sql.{sql, IndexName};
ghost use Rattle.wat_isolation.specs.Small.{numbers, primary};
ghost use Rattle.wat_isolation.specs.Cases.{three_rows, begun, scan, insert, update, delete, forty};
ghost use Rattle.wat_isolation.specs.Rows.{before, upto};
ghost use Rattle.wat_isolation.specs.Naming.{is_indexed, key_in, owner_in};
ghost use Rattle.wat_value.specs.declared.value.Value.{Value};
ghost use Rattle.wat_value.specs.Changes.{RowName, row_name};
ghost use Rattle.wat_value.specs.Indexes.{index_key};
ghost use Rattle.wat_schema.specs.Catalog.{Catalog, Listing, listing_at};

/// Whatever events come, in whatever order of the connections, and none of them in conflict with a lock:
/// - each committed transaction did what it does alone on the tables after the commits before it: each of its scans at level 3
///   answered as the plain scan of these tables with its own earlier changes, so did each row that it looked up, and each of its changes applies;
/// - each open transaction did what it does alone on the tables after all commits so far.
pub fn serial_answers()
    ensures committed { (g : Scheme sql) (base : Tables sql) (events : List (Event sql)) → Runs sql events (start sql g base) → Serial sql base (run sql events (start sql g base)).history }
    ensures uncommitted { (g : Scheme sql) (base : Tables sql) (events : List (Event sql)) → Runs sql events (start sql g base) → (c : ℕ) → Alone sql (run sql events (start sql g base)).scheme (After sql base (run sql events (start sql g base)).history) ((run sql events (start sql g base)).conns c).log }
{}

/// After every such list of events each open transaction guards the keys of its scans at level 3: no event of another
/// connection changes a position or a row there, and no change of another connection brings, takes or changes a row whose
/// key lies within one.
pub fn scans_are_guarded()
    ensures guarded { (g : Scheme sql) (base : Tables sql) (events : List (Event sql)) → Runs sql events (start sql g base) → (c : ℕ) (at : Scan sql) → Scanned sql at ((run sql events (start sql g base)).conns c).log → Guarded sql (run sql events (start sql g base)) c at }
    ensures footprints { (g : Scheme sql) (base : Tables sql) (events : List (Event sql)) → Runs sql events (start sql g base) → (next : Event sql) → May sql (run sql events (start sql g base)) next → (c : ℕ) → (IsBy sql next c → ⊥) → (at : Scan sql) → Scanned sql at ((run sql events (start sql g base)).conns c).log → SameAt sql (run sql events (start sql g base)) (happens sql (run sql events (start sql g base)) next) at }
    ensures unchanged { (g : Scheme sql) (base : Tables sql) (events : List (Event sql)) → Runs sql events (start sql g base) → (d : ℕ) (r : sql.Row) (after : Option sql.Content) (wants : List (Lock sql)) (next : sql.Index → Place sql) → May sql (run sql events (start sql g base)) (Change d r after wants next) → (c : ℕ) → (d ≡ c → ⊥) → (at : Scan sql) → Scanned sql at ((run sql events (start sql g base)).conns c).log → (x : sql.Key) → Within sql at.lo at.hi x → key_at sql (run sql events (start sql g base)).scheme at.index r after ≡ Some x ⊎ (key_at sql (run sql events (start sql g base)).scheme at.index r ((run sql events (start sql g base)).now r) ≡ Some x) → after ≡ (run sql events (start sql g base)).now r }
{}

/// A list of vacant keys that is kept as an engine keeps it gives the positions: a key is a position exactly where a row
/// stands at it now, or the list has it. At each change and each undoing the keys that the row leaves are added for its
/// connection; at the end of a transaction its connection's keys are dropped.
pub fn vacant_keys_are_positions()
    ensures positions { (g : Scheme sql) (base : Tables sql) (events : List (Event sql)) → Runs sql events (start sql g base) → (list : List (VacantKey sql)) → NotesAll sql events (start sql g base) [] list → (i : sql.Index) (x : sql.Key) → IsPos sql (run sql events (start sql g base)) i x ↔ (IsLive sql (run sql events (start sql g base)).scheme i (run sql events (start sql g base)).now x ⊎ IsVacantIn sql list i x) }
{}

/// A rollback may always happen: all changes that stand are undone, the last one first, and the transaction ends.
pub fn rollbacks_may_happen()
    ensures runs { (g : Scheme sql) (base : Tables sql) (events : List (Event sql)) → (c : ℕ) → Runs sql (rollback sql c ((run sql events (start sql g base)).conns c).standing) (run sql events (start sql g base)) }
{}

/// The indexes of a schema are such as the laws above ask: a key of an index belongs to one row, whose primary key stands at its
/// end; and a row of a table that stands has its key in each index of the table.
pub fn keys_name_their_rows()
    ensures owned { (c : Catalog) (i : IndexName) (r : RowName) (row x : List Value) → key_in c i r row ≡ Some x → owner_in c i x ≡ r }
    ensures has_key { (c : Catalog) (l : Listing) (index : ℕ) (row : List Value) → listing_at c l.def.number ≡ Some l → is_indexed l index ≡ true → key_in c (record { table = l.def.number; index = index }) (row_name l.def row) row ≡ Some (index_key l.def l.indexes index row) }
{}

/// Worked cases over one table with rows 10, 30 and 50. Connection 1 scans the keys 20 to 39 (or to 49), reads row 30, and may
/// do so. In each other list of events one comes that would let the scan, made again, answer otherwise: that one may not happen,
/// whatever it asks.
pub fn worked_cases()
    ensures scan_runs { Runs numbers (scan 1 [] 39 (At 50)) (start numbers primary three_rows) }
    // Connection 2 inserts a row behind row 30, or before it, or changes or deletes row 30.
    ensures insert_past { (wants : List (Lock numbers)) (next : ℕ → Place numbers) → Runs numbers (scan 1 [] 39 (At 50) ++ insert 2 35 wants next ∷ []) (start numbers primary three_rows) → ⊥ }
    ensures insert_before { (wants : List (Lock numbers)) (next : ℕ → Place numbers) → Runs numbers (scan 1 [] 39 (At 50) ++ insert 2 25 wants next ∷ []) (start numbers primary three_rows) → ⊥ }
    ensures update_read { (wants : List (Lock numbers)) (next : ℕ → Place numbers) → Runs numbers (scan 1 [] 39 (At 50) ++ update 2 30 31 wants next ∷ []) (start numbers primary three_rows) → ⊥ }
    ensures delete_read { (wants : List (Lock numbers)) (next : ℕ → Place numbers) → Runs numbers (scan 1 [] 39 (At 50) ++ delete 2 30 wants next ∷ []) (start numbers primary three_rows) → ⊥ }
    // Connection 1 itself inserts row 40 into what it scanned; then connection 2 inserts row 35 before it.
    ensures insert_before_own { (wants wants2 : List (Lock numbers)) (next next2 : ℕ → Place numbers) → Runs numbers ((scan 1 [] 49 (At 50) ++ insert 1 40 wants next ∷ []) ++ insert 2 35 wants2 next2 ∷ []) (start numbers primary three_rows) → ⊥ }
    // Connection 1 inserts row 40, scans up to it, and takes it back; then connection 2 inserts row 35.
    ensures insert_before_undone { (wants wants2 : List (Lock numbers)) (next next2 : ℕ → Place numbers) → Runs numbers ((insert 1 40 wants next ∷ scan 1 (Did 40 None (Some 40) ∷ []) 39 (At 40) ++ Undo 1 forty [] ∷ []) ++ insert 2 35 wants2 next2 ∷ []) (start numbers primary three_rows) → ⊥ }
    // Connection 2 has inserted row 40, or deleted row 50, or changed or deleted row 30, and not yet committed; then connection 1 scans.
    ensures scan_beside_insert { (wants : List (Lock numbers)) (next : ℕ → Place numbers) → Runs numbers (insert 2 40 wants next ∷ scan 1 [] 39 (At 40)) (start numbers primary three_rows) → ⊥ }
    ensures scan_beside_delete { (wants : List (Lock numbers)) (next : ℕ → Place numbers) → Runs numbers (delete 2 50 wants next ∷ scan 1 [] 39 (At 50)) (start numbers primary three_rows) → ⊥ }
    ensures visit_beside_update { (wants : List (Lock numbers)) (next : ℕ → Place numbers) (found : List (ℕ × ℕ)) → Runs numbers (update 2 30 31 wants next ∷ Begin_scan 1 0 (before numbers 20) ∷ Visit 1 begun [] 30 found (Read 30 ∷ Phantom 0 (At 30) ∷ []) ∷ []) (start numbers primary three_rows) → ⊥ }
    ensures scan_over_vacant { (wants wants2 : List (Lock numbers)) (next : ℕ → Place numbers) (past : Place numbers) → Runs numbers (delete 2 30 wants next ∷ Begin_scan 1 0 (before numbers 20) ∷ Past 1 begun [] (upto numbers 39) past wants2 ∷ []) (start numbers primary three_rows) → ⊥ }
{}

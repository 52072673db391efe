ghost use Rattle.std.specs.Prelude.{◌≡◌, ℕ, List, [], map, true, false, Option};
ghost use Rattle.wat_locks.specs.declared.want.Want.{Want};
ghost use Rattle.wat_locks.specs.declared.held.Against.{Against};
ghost use Rattle.wat_cycle.specs.declared.request.Edge.{Edge};
ghost use Rattle.wat_conn.specs.declared.answer.Answer.TheVariants.{Locked};
ghost use Rattle.wat_scans.specs.Running.{Run};
ghost use Rattle.wat_steps.specs.State.{CoreState, Progressed.Answered, Progressed.Waiting, with_connection};
ghost use Rattle.wat_steps.specs.Answering.{IsSame};
ghost use Rattle.wat_steps.specs.Asking.{IsBlocked, IsDeadlock, IsNoDeadlock, asking, broken_off, going_on, refused};
ghost use Rattle.wat_steps.specs.Fresh.{asked, fresh};
ghost use Rattle.wat_schema.specs.Tables.{Tables};
ghost use Rattle.wat_core.specs.CoreParts.{CoreParts, HasCore};
ghost use Rattle.wat_core.specs.Parts.{HasParts};

/// What a step comes to that met a lock of another connection, by what the connection is told.
pub fn blocked_law()
    // One that is not to wait is refused.
    ensures locked { (c : ℕ) (e after : CoreState) (run : Run) (wants : List Want) (against : Against) → (e.connections c).blocking ≡ false
        → IsSame (refused c e run (Locked against)) after → IsBlocked c e run wants against (e.connections c).blocking Answered after }

    // One that closes no cycle waits.
    ensures waiting { (c : ℕ) (e after : CoreState) (run : Run) (wants : List Want) (against : Against) → (e.connections c).blocking ≡ true → IsNoDeadlock (asking c wants e) c
        → IsSame (asking c wants e) after → IsBlocked c e run wants against (e.connections c).blocking (Waiting against) after }

    // One that would close a cycle is broken off.
    ensures deadlock { (c : ℕ) (e after : CoreState) (run : Run) (wants : List Want) (against : Against) (cycle : List Edge) → (e.connections c).blocking ≡ true → IsDeadlock (asking c wants e) c cycle
        → IsSame (broken_off c e run cycle) after → IsBlocked c e run wants against (e.connections c).blocking Answered after }
{}

/// A session begins with these connections, of which none holds a lock.
pub fn fresh_law()
    ensures { (base : Tables) (scripts : List (List ℕ)) → HasParts (fresh base scripts) (map asked scripts) [] }
{}

/// A statement that goes on has its Run from then on, whatever was under way before.
pub fn going_on_law()
    ensures { (e : CoreState) (c : ℕ) (run : Run) (work : Option Run) (parts : CoreParts) → HasCore (going_on c run (with_connection c (record (e.connections c) { work = work }) e)) parts → HasCore (going_on c run e) parts }
{}

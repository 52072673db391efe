ghost use Rattle.std.specs.Prelude.{◌≡◌, ℕ, List, None, Some};
ghost use Rattle.wat_schema.specs.Tables.{Tables};
ghost use Rattle.wat_list.specs.Has.{HasSame};
ghost use Rattle.wat_conn.specs.declared.answer.Reason.{Reason};
ghost use Rattle.wat_scans.specs.Running.{Run, Next.ToChange, next};
ghost use Rattle.wat_steps.specs.State.{CoreState, Progressed, Progressed.Moved, Progressed.Waiting, Progressed.Ended};
ghost use Rattle.wat_steps.specs.Fresh.{fresh, script_of};
ghost use Rattle.wat_steps.specs.Step.{IsStep};
ghost use Rattle.wat_steps.specs.Cases.{insertion, first_state, second_state, third_state, against_insert};

/// After a stop no step changes the tables, the locks, the vacant keys or the commits.
pub fn stop_law()
    ensures { (e after : CoreState) (c : ℕ) (a : Progressed) (reason : Reason) → e.stop ≡ Some reason → IsStep e c a after
        → (after.now ≡ e.now) × (after.committed ≡ e.committed) × HasSame after.held e.held × HasSame after.vacant e.vacant × (after.moments ≡ e.moments) × (after.stop ≡ Some reason) }
{}

/// Two connections work on a table without rows. The first one inserts a row. The second one reads the table at level 3, comes to
/// that row, and waits for the first one's lock on it.
pub fn worked_steps()
    ensures inserts { (run : Run) → next run ≡ ToChange insertion → IsStep (first_state run) 1 Moved (second_state run) }
    ensures waits { (run : Run) → IsStep (second_state run) 2 (Waiting against_insert) (third_state run) }
{}

/// A connection that there isn't has ended: a step of it from the beginning finds nothing to do, and leaves the tables as they are.
pub fn absent_law()
    ensures { (base : Tables) (scripts : List (List ℕ)) (c : ℕ) (a : Progressed) (after : CoreState) → script_of scripts c ≡ None → IsStep (fresh base scripts) c a after → (a ≡ Ended) × (after.now ≡ base) }
{}

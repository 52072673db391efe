ghost use Rattle.std.specs.Prelude.{◌≡◌, ◌≢◌, ℕ, true, map, [], ◌∷◌, List, None, Some, Ok};
ghost use Rattle.wat_value.specs.declared.change.Change.{Change};
ghost use Rattle.wat_value.specs.Changes.{changed_table, row_before};
ghost use Rattle.wat_value.specs.Indexes.{index_numbers};
ghost use Rattle.wat_schema.specs.Catalog.{Listing, Name, listing_at};
ghost use Rattle.wat_level.specs.declared.change.Spot.{Spot};
ghost use Rattle.wat_level.specs.Change.{change_wants};
ghost use Rattle.wat_scans.specs.Look.{look};
ghost use Rattle.wat_steps.specs.Making.{AreSpots, changed, standing_row, duplicate};
ghost use Rattle.wat_ast.specs.declared.statement.Statement.{Statement};
ghost use Rattle.wat_parse.specs.declared.script.Span.{Span};
ghost use Rattle.wat_parse.specs.Parsing.{parsed_at};
ghost use Rattle.wat_rules.specs.Check.{check};
ghost use Rattle.wat_scans.specs.Told.{IsStepped};
ghost use Rattle.wat_schema.specs.Tables.{Row, Tables, IsTables, apply_all};
ghost use Rattle.wat_conn.specs.declared.answer.Reason.{Reason};
ghost use Rattle.wat_conn.specs.declared.answer.Answer.TheVariants.{Given, Refused, Locked};
ghost use Rattle.wat_conn.specs.declared.answer.Reply.TheVariants.{RolledBack};
ghost use Rattle.wat_rules.specs.Changes.{changes_schema};
ghost use Rattle.wat_schema.specs.declared.refusal.Refusal.{Refusal};
ghost use Rattle.wat_meaning.specs.declared.reply.Reply.{Reply as Meant};
ghost use Rattle.wat_locks.specs.declared.held.Against.{Against};
ghost use Rattle.wat_cycle.specs.declared.request.Edge.{Edge};
ghost use Rattle.wat_meaning.specs.Meaning.{meaning};
ghost use Rattle.wat_locks.specs.declared.want.Want.{Want};
ghost use Rattle.wat_locks.specs.Held.{AreFree};
ghost use Rattle.wat_expr.specs.Evaluation.{Combination};
ghost use Rattle.wat_scans.specs.declared.scan.Scan.{Scan};
ghost use Rattle.wat_scans.specs.declared.scan.Seen.{Seen};
ghost use Rattle.wat_scans.specs.declared.scan.Taken.{Taken};
ghost use Rattle.wat_scans.specs.Recorded.{index_of_step};
ghost use Rattle.wat_scans.specs.Running.{Run, Next.ToVisit, Next.ToChange, Next.ToReply, Next.ToRefuse, next, after_visit, row_changed};
ghost use Rattle.wat_scans.specs.Scans.{Progress};
ghost use Rattle.wat_history.specs.Connection.{Part, opens};
ghost use Rattle.wat_history.specs.History.{Commit, IsHistory};
ghost use Rattle.wat_conn.specs.declared.session.Session.{Session};
ghost use Rattle.wat_history.specs.Plain.{Plain};
ghost use Rattle.wat_value.specs.declared.change.Act.TheVariants.{OnRow};
ghost use Rattle.wat_history.specs.Serial.{Follows, Serial};
ghost use Rattle.wat_steps.specs.State.{OpenTransaction, CoreState, Progressed, schema_of};
ghost use Rattle.wat_steps.specs.Fresh.{fresh};
ghost use Rattle.wat_steps.specs.Answering.{IsSame, entry_at, answered, opened, rolled_back};
ghost use Rattle.wat_steps.specs.Asking.{asking, refused, broken_off};
ghost use Rattle.wat_steps.specs.Statements.{begun, back_to, committed, next_number, answer_saying, altered};
ghost use Rattle.wat_steps.specs.Visiting.{IsSeen, wants_of, visited};
ghost use Rattle.wat_steps.specs.Step.{IsStep, Runs, Stays, replied, closed};
ghost use Rattle.wat_tied.specs.Ready.{IsReadyFor};
ghost use Rattle.wat_tied.specs.Told.{IsHistoryTold, IsSerialTold, IsSessionOf};
ghost use Rattle.wat_tied.specs.Tied.{IsFormed, IsTied, parts_in};

/// Where the core is tied to the law of isolation, its committed transactions are serial, and each open one follows on
/// them. It is tied at the beginning. A step that waits
/// leaves it tied, and so do the first step that stops and every step after a stop.
pub fn tied_laws()
    ensures serial { (e : CoreState) (tied : IsTied e) → Serial 3 e.base tied.ghost.history e.committed }
    ensures open_ones { (e : CoreState) (tied : IsTied e) (c : ℕ) → (after : Tables) × Follows 3 e.committed (parts_in (tied.ghost.entries c)) after }
    ensures begins { (base : Tables) (scripts : List (List ℕ)) → IsTables base → IsTied (fresh base scripts) }
    ensures stops { (e after : CoreState) (c : ℕ) (a : Progressed) (reason : Reason) → IsTied e → Stays c (record e { stop = Some reason }) reason (e.connections c).left a after → IsTied after }
    ensures stopped { (e after : CoreState) (c : ℕ) (a : Progressed) (reason : Reason) → IsTied e → e.stop ≡ Some reason → IsStep e c a after → IsTied after }
    ensures waits { (e after : CoreState) (c : ℕ) (wants : List Want) → IsTied e → IsSame (asking c wants e) after → IsTied after }
{}

/// A checked statement on rows that is begun leaves the core tied, with a transaction open.
pub fn begun_law()
    ensures { (e after : CoreState) (c : ℕ) → IsTied e → (e.connections c).work ≡ None
        → (span : Span) (more : List Span) → (e.connections c).left ≡ span ∷ more → (written : Statement) → parsed_at (e.connections c).script span ≡ Ok written
        → (x : Statement) → check (schema_of e) written ≡ Ok x → IsStepped x → IsSame (begun c (opened c e) (Ok x)).1 after → IsTied after }
{}

/// A visit that is granted, after which the statement goes on, leaves the core tied: at level 3 and at the lower ones, at a position
/// of the interval and past it.
pub fn visit_law()
    ensures { (e after : CoreState) (c : ℕ) (run : Run) → IsTied e → e.stop ≡ None → (e.connections c).work ≡ Some run
        → (scan : Scan) (taken : List Taken) (met : List Combination) → next run ≡ ToVisit scan taken met
        → (seen : Seen) → IsSeen e (index_of_step run.task.plan scan.step) scan seen → AreFree e.held c (wants_of run scan taken seen)
        → (progress : Progress) → (after_visit run scan taken met seen).progress ≡ Some progress → IsSame (visited c e run scan taken met seen).1 after → IsTied after }
{}

/// A change that is granted leaves the core tied: with its locks, the keys that it leaves noted as vacant, at every level. It is formed,
/// and its row is now as it found it.
pub fn change_law()
    ensures { (e after : CoreState) (c : ℕ) (run : Run) → IsTied e → e.stop ≡ None → (e.connections c).work ≡ Some run
        → (change : Change) → next run ≡ ToChange change → IsFormed (schema_of e) change → look e.now (row_changed (schema_of e) change) ≡ row_before change
        → (l : Listing) → listing_at (schema_of e) (changed_table change) ≡ Some l → (spots : List Spot) → AreSpots e c l change (index_numbers l.indexes) spots → AreFree e.held c (change_wants l.def change spots)
        → IsSame (changed c e run l change spots) after → IsTied after }
{}

/// An answer to a statement under way leaves the core tied: its reply, after which its changes stand; what it is refused for, a WHERE that
/// has an error over what a visit sees, a row that stands already, and a lock that another connection holds, after which its changes are
/// undone.
pub fn answer_law()
    ensures replies { (e after : CoreState) (c : ℕ) (run : Run) → IsTied e → e.stop ≡ None → (e.connections c).work ≡ Some run → (reply : Meant) → next run ≡ ToReply reply → IsSame (replied c e run reply) after → IsTied after }
    ensures refuses { (e after : CoreState) (c : ℕ) (run : Run) → IsTied e → e.stop ≡ None → (e.connections c).work ≡ Some run → (refusal : Refusal) → next run ≡ ToRefuse refusal → IsSame (refused c e run (Refused refusal)) after → IsTied after }
    ensures fails { (e after : CoreState) (c : ℕ) (run : Run) → IsTied e → e.stop ≡ None → (e.connections c).work ≡ Some run
        → (scan : Scan) (taken : List Taken) (met : List Combination) → next run ≡ ToVisit scan taken met
        → (seen : Seen) → IsSeen e (index_of_step run.task.plan scan.step) scan seen → AreFree e.held c (wants_of run scan taken seen)
        → (after_visit run scan taken met seen).progress ≡ None → IsSame (visited c e run scan taken met seen).1 after → IsTied after }
    ensures duplicates { (e after : CoreState) (c : ℕ) (run : Run) → IsTied e → e.stop ≡ None → (e.connections c).work ≡ Some run
        → (change : Change) → next run ≡ ToChange change → (l : Listing) → listing_at (schema_of e) (changed_table change) ≡ Some l
        → (other : Row) → standing_row e l change ≡ Some other → AreFree e.held c (change_wants l.def change []) → IsSame (duplicate c e run l change) after → IsTied after }
    ensures locked { (e after : CoreState) (c : ℕ) (run : Run) → IsTied e → e.stop ≡ None → (e.connections c).work ≡ Some run → (against : Against) → IsSame (refused c e run (Locked against)) after → IsTied after }
{}

/// The end of a transaction leaves the core tied: COMMIT, by which the serial history grows by one transaction; ROLLBACK, a deadlock and the end
/// of the script, by which all that stands is undone. So do ROLLBACK TO SAVEPOINT, by which the changes since then are undone, and a CREATE or
/// DROP while no transaction is open, which is a transaction of its own.
pub fn end_law()
    ensures commits { (e after : CoreState) (c : ℕ) → IsTied e → e.stop ≡ None → (e.connections c).work ≡ None → (o : OpenTransaction) → (e.connections c).transaction ≡ Some o
        → (span : Span) (more : List Span) → (e.connections c).left ≡ span ∷ more → (written : Statement) → parsed_at (e.connections c).script span ≡ Ok written → (moment : ℕ) → IsSame (committed c moment (Some o) e) after → IsTied after }
    ensures rolls_back { (e after : CoreState) (c : ℕ) → IsTied e → (e.connections c).work ≡ None → (o : OpenTransaction) → (e.connections c).transaction ≡ Some o
        → (span : Span) (more : List Span) → (e.connections c).left ≡ span ∷ more → (written : Statement) → parsed_at (e.connections c).script span ≡ Ok written → IsSame (answered c (rolled_back c e) (Given RolledBack) []) after → IsTied after }
    ensures breaks_off { (e after : CoreState) (c : ℕ) (run : Run) → IsTied e → e.stop ≡ None → (e.connections c).work ≡ Some run → (cycle : List Edge) → IsSame (broken_off c e run cycle) after → IsTied after }
    ensures closes { (e after : CoreState) (c : ℕ) → IsTied e → (e.connections c).work ≡ None → (o : OpenTransaction) → (e.connections c).transaction ≡ Some o → (e.connections c).left ≡ [] → IsSame (closed c e) after → IsTied after }
    ensures goes_back { (e after : CoreState) (c : ℕ) → IsTied e → e.stop ≡ None → (e.connections c).work ≡ None → (span : Span) (more : List Span) → (e.connections c).left ≡ span ∷ more
        → (written : Statement) → parsed_at (e.connections c).script span ≡ Ok written → opens written ≡ true → (save : Name × ℕ) (earlier : List (Name × ℕ)) → IsSame (back_to c save.0 (save ∷ earlier) e) after → IsTied after }
    ensures alters { (e after : CoreState) (c : ℕ) → IsTied e → e.stop ≡ None → ((d : ℕ) → (e.connections d).transaction ≡ None) → (span : Span) (more : List Span) → (e.connections c).left ≡ span ∷ more
        → (written : Statement) → parsed_at (e.connections c).script span ≡ Ok written → changes_schema written ≡ true → (meaning e.now written).acts ≢ [] → (moment : ℕ) (t : Tables) → apply_all (meaning e.now written).acts e.now ≡ Some t
        → IsSame (altered c moment (answer_saying (next_number e) (meaning e.now written).answer) (meaning e.now written).acts t e) after → IsTied after }
{}

/// Every step leaves the core tied, and so does every list of steps from the beginning, whatever the connections are asked, at whichever levels, and
/// whichever of them goes on: visits, changes, answers, waits, ends, stops. Then the commits are serial at level 3, and what each connection
/// has open follows on them.
pub fn steps_keep_tied()
    ensures step { (e after : CoreState) (c : ℕ) (a : Progressed) → IsTied e → IsStep e c a after → IsTied after }
    ensures runs { (base : Tables) (scripts : List (List ℕ)) → IsTables base → (steps : List ℕ) (last : CoreState) → Runs (fresh base scripts) steps last → IsTied last }
    ensures serial { (base : Tables) (scripts : List (List ℕ)) → IsTables base → (steps : List ℕ) (last : CoreState) → Runs (fresh base scripts) steps last
        → (history : List Commit) × Serial 3 base history last.committed × ((c : ℕ) → (parts : List Part) × (after : Tables) × Follows 3 last.committed parts after) }
{}

/// At every level the next change of a statement is ready: its rows fit, and a row that it updates or deletes is now as it was met, whatever the other
/// connections did since then.
pub fn ready_law()
    ensures { (e : CoreState) (c : ℕ) (run : Run) → IsTied e → e.stop ≡ None → (e.connections c).work ≡ Some run → (change : Change) → next run ≡ ToChange change → IsReadyFor e change }
{}

/// The transcripts tell of this history. After every list of steps from the beginning, the numbers that COMMIT, CREATE and DROP are answered order the
/// committed transactions of all connections in one history, each once; over it each statement at level 3, and each CREATE and DROP, is answered
/// what it means over the tables that the transactions before it and the earlier entries of its own leave. So is each that the connections which have
/// not ended have open. Each entry below level 3 is plain by the schema after some of the transactions.
pub fn transcripts_tell()
    ensures serial { (base : Tables) (scripts : List (List ℕ)) → IsTables base → (steps : List ℕ) (last : CoreState) → Runs (fresh base scripts) steps last → (history : List Commit) × IsSerialTold base last history }
    // of a session with these transcripts it is the history
    ensures session { (last : CoreState) (session : Session) (history : List Commit) → IsSessionOf last session → IsHistoryTold last history → IsHistory session history }
{}

/// The reply to a statement under way is plain, at every level: an UPDATE or DELETE changed rows that WHERE passes, each once and in key order, each as SET
/// makes it or deleted; an INSERT of VALUES made just the rows that they mean; and so many changes were made as the reply says.
pub fn plain_law()
    ensures { (e : CoreState) (c : ℕ) (run : Run) → IsTied e → e.stop ≡ None → (e.connections c).work ≡ Some run → (reply : Meant) → next run ≡ ToReply reply → (span : Span) (more : List Span) → (e.connections c).left ≡ span ∷ more
        → (least : ℕ) → Plain least (schema_of e) (record { read = parsed_at (e.connections c).script span; entry = entry_at span (e.connections c).level (answer_saying 0 reply) (map OnRow run.made) }) }
{}

ghost use Rattle.std.specs.Prelude.{◌≡◌, ℕ, List, [], ◌∷◌, ◌++◌, length, map, nat_le, take, true, Option, Some};
ghost use Rattle.std.specs.List.{range_with_len};
ghost use Rattle.wat_value.specs.declared.change.Act.TheVariants.{OnRow};
ghost use Rattle.wat_schema.specs.Tables.{Tables, apply_all, are_tables};
ghost use Rattle.wat_schema.specs.declared.refusal.Refusal.{Refusal};
ghost use Rattle.wat_locks.specs.declared.held.Against.{Against};
ghost use Rattle.wat_cycle.specs.declared.request.Edge.{Edge};
ghost use Rattle.wat_conn.specs.declared.answer.Answer.TheVariants.{Refused, Locked, Deadlock};
ghost use Rattle.wat_conn.specs.declared.answer.Reason.{Reason};
ghost use Rattle.wat_conn.specs.declared.session.Entry.{Entry};
ghost use Rattle.wat_conn.specs.declared.session.Session.{Session};
ghost use Rattle.wat_history.specs.Connection.{Connection, Part, Transaction, are_of_rows, connection_after, new_connection, parts_of};
ghost use Rattle.wat_history.specs.Fits.{AreAnswered, Fits, IsAnswered};
ghost use Rattle.wat_history.specs.History.{Commit, IsHistory, commits_from, commits_of, connections_of, effect, effects, entries_of, open_parts};
ghost use Rattle.wat_history.specs.Serial.{Follows, Means, Serial, after};
ghost use Rattle.wat_history.specs.Single.{Stage, IsAlone, begun};
ghost use Rattle.wat_history.specs.Naming.{names_of};
ghost use Rattle.wat_history.specs.Sessions.{IsSerialSession};
ghost use Rattle.wat_history.specs.Cases.{ConnectionCases, AnswerCases, HistoryCases, SerialCases, PlainCases, CutCases};

/// A statement that is refused, finds another's lock in its way or ends in a deadlock has no
/// acts.
pub fn answer_laws()
    ensures refused { (c : Connection) (p : Part) (refusal : Refusal) → IsAnswered c p → p.entry.answer ≡ Refused refusal → p.entry.acts ≡ [] }
    ensures locked { (c : Connection) (p : Part) (against : Against) → IsAnswered c p → p.entry.answer ≡ Locked against → p.entry.acts ≡ [] }
    ensures deadlock { (c : Connection) (p : Part) (cycle : List Edge) → IsAnswered c p → p.entry.answer ≡ Deadlock cycle → p.entry.acts ≡ [] }
{}

/// A session has one history. Its transactions have the numbers from 1 to their count, each once.
pub fn history_laws()
    ensures one { (s : Session) (h g : List Commit) → IsHistory s h → IsHistory s g → h ≡ g }
    ensures numbers { (s : Session) (h : List Commit) → IsHistory s h → map (λ commit. commit.number) h ≡ range_with_len 1 (length (commits_of s)) }
{}

/// A serial history leads to one state of the tables, which its acts make, and so does each prefix of
/// it. It goes on with a transaction that follows on its end, and a transaction with an entry that
/// means what it answers. What is serial at some levels is so at the higher ones alone.
pub fn serial_laws()
    ensures one { (least : ℕ) (base t u : Tables) (h : List Commit) → Serial least base h t → Serial least base h u → t ≡ u }
    ensures made { (least : ℕ) (base t : Tables) (h : List Commit) → Serial least base h t → apply_all (effects h) base ≡ Some t }
    ensures end_of { (least : ℕ) (base t : Tables) (h : List Commit) → Serial least base h t → after base h (length h) ≡ t }
    ensures prefix { (least : ℕ) (base t : Tables) (h : List Commit) (count : ℕ) → Serial least base h t → Serial least base (take count h) (after base h count) }
    ensures longer { (least : ℕ) (base mid t : Tables) (h : List Commit) (commit : Commit) → Serial least base h mid → Follows least mid commit.parts t → Serial least base (h ++ commit ∷ []) t }
    ensures follows { (least : ℕ) (t mid u : Tables) (parts : List Part) (p : Part) → Follows least t parts mid → Means least mid p → apply_all p.entry.acts mid ≡ Some u → Follows least t (parts ++ p ∷ []) u }
    ensures higher { (least more : ℕ) (base t : Tables) (h : List Commit) → nat_le least more ≡ true → Serial least base h t → Serial more base h t }
{}

/// The changes of an open transaction that stand do what the acts of its entries do in their order.
pub fn open_laws()
    ensures { (stop : Option Reason) (parts : List Part) (open_one : Transaction) (t u : Tables) → AreAnswered stop new_connection parts → (connection_after parts).transaction ≡ Some open_one
        → are_of_rows (effect open_one.parts) ≡ true → are_tables t ≡ true → apply_all (effect open_one.parts) t ≡ Some u → apply_all (map OnRow open_one.standing) t ≡ Some u }
{}

/// Where one connection alone is answered what its statements mean over the tables with its own open
/// changes, and its commits have the numbers 1, 2, 3 and so on, they are the history of the session, and
/// it is serial at every level. Its open transaction follows on it.
pub fn single_laws()
    ensures serial { (stop : Option Reason) (base : Tables) (parts : List Part) (last : Stage) → AreAnswered stop new_connection parts → IsAlone (begun base) parts last → Serial 0 base (commits_from new_connection parts) last.committed }
    ensures numbers { (stop : Option Reason) (base : Tables) (parts : List Part) (last : Stage) → AreAnswered stop new_connection parts → IsAlone (begun base) parts last
        → map (λ commit. commit.number) (commits_from new_connection parts) ≡ range_with_len 1 (length (commits_from new_connection parts)) }
    ensures open_one { (stop : Option Reason) (base : Tables) (parts : List Part) (last : Stage) → AreAnswered stop new_connection parts → IsAlone (begun base) parts last → Follows 0 last.committed (open_parts (connection_after parts)) last.now }
    ensures history { (s : Session) (parts : List Part) → connections_of s ≡ parts ∷ [] → map (λ commit. commit.number) (commits_from new_connection parts) ≡ range_with_len 1 (length (commits_from new_connection parts))
        → IsHistory s (commits_from new_connection parts) }

    // With its names and moments, the session of one script is all that a session may be asked.
    ensures whole { (s : Session) (base : Tables) (text : List ℕ) (entries : List Entry) (last : Stage) → s.scripts ≡ text ∷ [] → entries_of s ≡ entries ∷ [] → Fits text entries s.stop → IsAlone (begun base) (parts_of text entries) last
        → length s.moments.items ≡ length (commits_from new_connection (parts_of text entries)) → s.names ≡ names_of base (effects (commits_from new_connection (parts_of text entries)))
        → IsSerialSession 0 base s (commits_from new_connection (parts_of text entries)) last.committed }
{}

/// Connections of a few entries and sessions of two, each with what the definitions say of them. The
/// function does nothing: it states the cases.
pub fn worked_cases()
    ensures connections { ConnectionCases }
    ensures answers { AnswerCases }
    ensures histories { HistoryCases }
    ensures serial { SerialCases }
    ensures plain { PlainCases }
    ensures cuts { CutCases }
{}

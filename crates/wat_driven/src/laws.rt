ghost use Rattle.std.specs.Prelude.{◌≡◌, ◌≤◌, ◌<◌, ℕ, true, map, List, None, Option, Some};
ghost use Rattle.wat_value.specs.declared.value.Value.{Value};
ghost use Rattle.wat_value.specs.declared.change.Act.TheVariants.{OnRow};
ghost use Rattle.wat_value.specs.declared.change.Change.{Change};
ghost use Rattle.wat_value.specs.Changes.{RowName, changed_row, row_before};
ghost use Rattle.wat_ast.specs.declared.statement.Statement.{Statement};
ghost use Rattle.wat_schema.specs.declared.refusal.Refusal.TheVariants.{Duplicate};
ghost use Rattle.wat_schema.specs.Catalog.{Catalog, Listing, listing_at};
ghost use Rattle.wat_schema.specs.Tables.{Row, Tables, apply_all};
ghost use Rattle.wat_meaning.specs.declared.reply.Reply.{Reply};
ghost use Rattle.wat_expr.specs.Evaluation.{Combination};
ghost use Rattle.wat_meaning.specs.Meaning.{meaning_checked, refusal_meaning};
ghost use Rattle.wat_meaning.specs.Standing.{change_fits};
ghost use Rattle.wat_isolation.specs.Sql.{IndexName};
ghost use Rattle.wat_scans.specs.declared.scan.Scan.{Scan};
ghost use Rattle.wat_scans.specs.declared.scan.Seen.{Seen};
ghost use Rattle.wat_scans.specs.declared.scan.Taken.{Taken};
ghost use Rattle.wat_scans.specs.Look.{IsOf};
ghost use Rattle.wat_scans.specs.Recorded.{index_of_step};
ghost use Rattle.wat_scans.specs.Running.{Run, Next.ToChange, Next.ToReply, Next.ToVisit, after_change, after_visit, begin, next, row_changed, task_of};
ghost use Rattle.wat_scans.specs.Sources.{IsSeen};
ghost use Rattle.wat_scans.specs.Still.{Granted};
ghost use Rattle.wat_scans.specs.Told.{IsChecked, IsStepped, Says};
ghost use Rattle.wat_driven.specs.Driven.{Drives};
ghost use Rattle.wat_driven.specs.Ending.{Keys, HasPositions, changes_left, visits_left, visits_of};

use wat_scans::alone_law;

/// A statement that is driven over the rows of a source which nothing but its own changes alters, all of its steps granted: each
/// visit found what stood at its moment, and each row that was inserted found its name free there. Its reply is its meaning over
/// the tables that the source stood for at its begin, with the changes made as its acts, which lead to the tables that it stands
/// for at the end; and what it is refused for is its meaning. The change that is next is of the table that it writes and fits it,
/// and a row that it alters or takes out stands as it says.
pub fn driven_law()
    ensures says { (c : Catalog) (s : Statement) → IsStepped s → IsChecked c s → (level : ℕ) (f : RowName → Option Row) (t : Tables) → IsOf c f t → (steps : List Granted) (run : Run) (rows : RowName → Option Row) → Drives c f level s steps run rows → Says t s run }
    ensures acts { (c : Catalog) (s : Statement) → IsStepped s → IsChecked c s → (level : ℕ) (f : RowName → Option Row) (t : Tables) → IsOf c f t → (steps : List Granted) (run : Run) (rows : RowName → Option Row) → Drives c f level s steps run rows → (reply : Reply) → next run ≡ ToReply reply
        → (after : Tables) × (apply_all (map OnRow run.made) t ≡ Some after) × IsOf c rows after }
    ensures duplicate { (c : Catalog) (s : Statement) → IsStepped s → IsChecked c s → (level : ℕ) (f : RowName → Option Row) (t : Tables) → IsOf c f t → (steps : List Granted) (run : Run) (rows : RowName → Option Row) → Drives c f level s steps run rows
        → (change : Change) → next run ≡ ToChange change → row_before change ≡ None → (other : Row) → rows (row_changed c change) ≡ Some other → meaning_checked t s ≡ refusal_meaning (Duplicate (row_changed c change).key) }
    ensures change { (c : Catalog) (s : Statement) → IsStepped s → IsChecked c s → (level : ℕ) (f : RowName → Option Row) (t : Tables) → IsOf c f t → (steps : List Granted) (run : Run) (rows : RowName → Option Row) → Drives c f level s steps run rows → (change : Change) → next run ≡ ToChange change
        → (change_fits c change ≡ true) × ((row : Row) → row_before change ≡ Some row → rows (row_changed c change) ≡ Some row) × ((l : Listing) × (run.task.target ≡ Some l) × (listing_at c (row_changed c change).table ≡ Some l) × (row_changed c change ≡ changed_row l.def change)) }
{
    alone_law();
}

/// A statement in steps ends, over rows whose positions in each index are among some keys: before its first step the visits that
/// are left are at most those that its plan can make over the keys, each visit leaves fewer, and when all are made, each change
/// leaves fewer changes.
pub fn ends_law()
    ensures first { (keys : Keys) (c : Catalog) (level : ℕ) (s : Statement) → visits_left keys (begin c level s) ≤ visits_of keys (task_of c s).plan (task_of c s).plan.steps }
    ensures visit { (keys : Keys) (c : Catalog) (rows : RowName → Option Row) (vacant : List (IndexName × List Value)) → HasPositions keys c rows vacant → (run : Run) (scan : Scan) (ts : List Taken) (met : List Combination) (seen : Seen) → next run ≡ ToVisit scan ts met
        → IsSeen c rows vacant (index_of_step run.task.plan scan.step) scan seen → visits_left keys (after_visit run scan ts met seen) < visits_left keys run }
    ensures change { (run : Run) (change : Change) → next run ≡ ToChange change → changes_left (after_change run change) < changes_left run }
{}

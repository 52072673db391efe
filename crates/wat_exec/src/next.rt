ghost use Rattle.std.specs.Prelude.{◌≡◌, ◌<◌, ◌^◌, ℕ, List, length, slice_get, Option, Some, Err, IfOk};
ghost use Rattle.wat_faults.specs.Faults.{HasCause};
ghost use Rattle.wat_value.specs.declared.change.Change.{Change as Changed};
ghost use Rattle.wat_schema.specs.Catalog.{Listing};
ghost use Rattle.wat_schema.specs.Tables.{Row as Stored};
ghost use Rattle.wat_schema.specs.declared.refusal.Refusal.{Refusal as Refused};
ghost use Rattle.wat_expr.specs.Evaluation.{Combination};
ghost use Rattle.wat_level.specs.Visit.{visit_wants};
ghost use Rattle.wat_locks.specs.declared.want.Want.{Want};
ghost use Rattle.wat_meaning.specs.declared.reply.Reply.{Reply as Replied};
ghost use Rattle.wat_plan.specs.Scanned.{ScansEach};
ghost use Rattle.wat_scans.specs.declared.scan.Scan.{Scan};
ghost use Rattle.wat_scans.specs.declared.scan.Seen.{Seen as Saw};
ghost use Rattle.wat_scans.specs.declared.scan.Taken.{Taken};
ghost use Rattle.wat_scans.specs.Recorded.{HasWidth, index_of_step};
ghost use Rattle.wat_scans.specs.Sources.{IsSeen};
ghost use Rattle.wat_visits.specs.Asked.{visit_of};
ghost use Rattle.wat_visits.specs.declared.source.SourceError.TheVariants.{Failed, Memory};
ghost use Rattle.wat_visits.specs.Sourced.{Sourced};
ghost use Rattle.wat_exec.specs.Asked.{IsAsked};
ghost use Rattle.wat_exec.specs.Making.{AreAsked, KeepsAsked};
ghost use Rattle.wat_exec.specs.Stepping.{target_in, writes_rows};
ghost use Rattle.wat_exec.specs.declared.changes.Changes.{Changes as Kept};
ghost use Rattle.wat_exec.specs.declared.changes.Step.TheVariants as due;
ghost use Rattle.wat_exec.specs.declared.next.Next.TheVariants as asked;
ghost use Rattle.wat_exec.specs.declared.noticed.Noticed.TheVariants.{AtPlace, AtRow};

use crate::asking::{Asked, asked_of};
use crate::begun::{target, writes_rows};
use crate::changes::Step;
use crate::noticed::Noticed;
use std::alloc::Global;
use wat_ast::Statement;
use wat_list::Items;
use wat_locks::Wants;
use wat_meaning::Reply;
use wat_plan::Plan;
use wat_schema::Refusal;
use wat_value::Change;
use wat_visits::{Nest, RowSource, SourceError};

/// What a statement asks next, or what it is answered.
#[derive(Drop)]
pub enum Next {
    /// A visit of the scan with this number.
    Visit { scan: u32, wants: Wants },
    Change { wants: Wants, change: Change },
    Refuse(Refusal),
    Reply(Reply),
}

/// What is next, and what was noticed of the rows for it.
#[derive(Drop)]
pub(crate) struct Answered {
    pub(crate) next: Next,
    pub(crate) noticed: Option<Noticed>,
}

// A visit of the innermost scan.
fn visit_asked<R: RowSource>(
    alloc: Global,
    rows: &mut R,
    statement: &Statement,
    level: u8,
    nest: &Nest,
) -> Result<Answered, SourceError>
    ensures visit { (scan : Scan) (ts : List Taken) (met : List Combination) → nest.now.progress ≡ Some (record { scan = Some scan; taken = ts; met = met }) → length ts < 2 ^ 32
        → IfOk result (λ a. (seen : Saw) × (a.noticed ≡ Some (AtPlace seen)) × (a.next ≡ asked.Visit (length ts) (visit_wants level (visit_of nest.now.plan (writes_rows statement.now) scan ts seen)))) }
    ensures seen { (s : Sourced) (scan : Scan) (ts : List Taken) (met : List Combination) (depth : ℕ) (seen : Saw) → R.stands_for rows.old s → ScansEach s.schema nest.now.plan → nest.now.progress ≡ Some (record { scan = Some scan; taken = ts; met = met })
        → slice_get nest.now.plan.steps depth ≡ Some scan.step → IfOk result (λ a. a.noticed ≡ Some (AtPlace seen) → IsSeen s.schema s.rows s.vacant (index_of_step nest.now.plan scan.step) scan seen × HasWidth nest.now.plan scan.step seen.place) }
    ensures asked { (kept : Option Kept) → IfOk result (λ a. AreAsked a.noticed kept) }
    ensures stays { (s : Sourced) → R.stands_for rows.old s → R.stands_for rows.new s }
    ensures beside { R.goes rows.old rows.new }
    ensures cause { HasCause (R.failures rows.old) (R.failures rows.new) (result ≡ Err SourceError.Failed) }
{
    let seen = nest.see(alloc, rows)?;
    let wants = nest.wants(alloc, level, writes_rows(statement), &seen)?;
    let scan = nest.depth();
    Ok(Answered {
        next: Next::Visit { scan, wants },
        noticed: Some(Noticed::AtPlace(seen)),
    })
}

// A change of the table that is written; without a table no statement has a change.
fn change_asked<R: RowSource>(
    alloc: Global,
    rows: &mut R,
    written: &Option<Plan>,
    change: Change,
) -> Result<Answered, SourceError>
    ensures change { (l : Listing) → target_in written.now ≡ Some l
        → IfOk result (λ a. (standing : Option Stored) × (wants : List Want) × (a.noticed ≡ Some (AtRow standing)) × (a.next ≡ asked.Change wants change) × IsAsked (R.stands_for rows.old) l change standing wants) }
    ensures asked { (kept : Option Kept) → KeepsAsked kept (due.Change change) → IfOk result (λ a. AreAsked a.noticed kept) }
    ensures stays { (s : Sourced) → R.stands_for rows.old s → R.stands_for rows.new s }
    ensures beside { R.goes rows.old rows.new }
    ensures cause { HasCause (R.failures rows.old) (R.failures rows.new) (result ≡ Err SourceError.Failed) }
{
    let Some(table) = target(written) else {
        let wants = Items::new(alloc);
        return Ok(Answered {
            next: Next::Change { wants, change },
            noticed: None,
        });
    };
    let Asked { wants, standing } = asked_of(alloc, rows, table, &change)?;
    Ok(Answered {
        next: Next::Change { wants, change },
        noticed: Some(Noticed::AtRow(standing)),
    })
}

/// What is asked or answered where this step is next.
pub(crate) fn answer_of<R: RowSource>(
    alloc: Global,
    rows: &mut R,
    statement: &Statement,
    level: u8,
    nest: &Nest,
    written: &Option<Plan>,
    step: Step,
) -> Result<Answered, SourceError>
    ensures visit { (scan : Scan) (ts : List Taken) (met : List Combination) → step ≡ due.Visit → nest.now.progress ≡ Some (record { scan = Some scan; taken = ts; met = met }) → length ts < 2 ^ 32
        → IfOk result (λ a. (seen : Saw) × (a.noticed ≡ Some (AtPlace seen)) × (a.next ≡ asked.Visit (length ts) (visit_wants level (visit_of nest.now.plan (writes_rows statement.now) scan ts seen)))) }
    ensures seen { (s : Sourced) (scan : Scan) (ts : List Taken) (met : List Combination) (depth : ℕ) (seen : Saw) → step ≡ due.Visit → R.stands_for rows.old s → ScansEach s.schema nest.now.plan → nest.now.progress ≡ Some (record { scan = Some scan; taken = ts; met = met })
        → slice_get nest.now.plan.steps depth ≡ Some scan.step → IfOk result (λ a. a.noticed ≡ Some (AtPlace seen) → IsSeen s.schema s.rows s.vacant (index_of_step nest.now.plan scan.step) scan seen × HasWidth nest.now.plan scan.step seen.place) }
    ensures change { (change : Changed) (l : Listing) → step ≡ due.Change change → target_in written.now ≡ Some l
        → IfOk result (λ a. (standing : Option Stored) × (wants : List Want) × (a.noticed ≡ Some (AtRow standing)) × (a.next ≡ asked.Change wants change) × IsAsked (R.stands_for rows.old) l change standing wants) }
    ensures refuse { (refusal : Refused) → step ≡ due.Refuse refusal → IfOk result (λ a. a.next ≡ asked.Refuse refusal) }
    ensures reply { (reply : Replied) → step ≡ due.Reply reply → IfOk result (λ a. a.next ≡ asked.Reply reply) }
    ensures asked { (kept : Option Kept) → KeepsAsked kept step → IfOk result (λ a. AreAsked a.noticed kept) }
    ensures stays { (s : Sourced) → R.stands_for rows.old s → R.stands_for rows.new s }
    ensures beside { R.goes rows.old rows.new }
    ensures cause { HasCause (R.failures rows.old) (R.failures rows.new) (result ≡ Err SourceError.Failed) }
{
    match step {
        Step::Visit => visit_asked(alloc, rows, statement, level, nest),
        Step::Change(change) => change_asked(alloc, rows, written, change),
        Step::Refuse(refusal) => Ok(Answered {
            next: Next::Refuse(refusal),
            noticed: None,
        }),
        Step::Reply(reply) => Ok(Answered {
            next: Next::Reply(reply),
            noticed: None,
        }),
    }
}

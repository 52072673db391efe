ghost use Rattle.std.specs.Prelude.{◌≡◌, [], ◌∷◌, ◌++◌, Option, Some, IfOk};
ghost use Rattle.wat_value.specs.declared.change.Change.{Change as Changed};
ghost use Rattle.wat_scans.specs.Running.{Next.ToChange, Task, progress_next};
ghost use Rattle.wat_scans.specs.Scans.{Progress};
ghost use Rattle.wat_exec.specs.declared.changes.Changes.{Changes as Kept};
ghost use Rattle.wat_exec.specs.Making.{AreKept, KeepsAsked, left_in, made_in, step_of};
ghost use Rattle.wat_exec.specs.Stepping.{target_in};

use crate::begun::target;
use std::alloc::Global;
use wat_ast::Statement;
use wat_changing::{Counted, Decision, decide};
use wat_list::{Copied, NoMemory};
use wat_meaning::Reply;
use wat_plan::Plan;
use wat_schema::Refusal;
use wat_value::Change;
use wat_visits::Nest;

/// What is next of a statement.
#[derive(Drop)]
pub(crate) enum Step {
    Visit,
    Change(Change),
    Refuse(Refusal),
    Reply(Reply),
}

/// The changes that a statement is to make, and how many of them are made.
#[derive(Drop)]
pub(crate) struct Changes {
    pub(crate) counted: Counted,
    pub(crate) all: Vec<Change>,
    pub(crate) made: usize,
}

impl Changes {
    /// The next of those that are left, or the reply.
    #[tactic(auto, using(crate::proofs::KeptLemmas::next_change, crate::proofs::KeptLemmas::next_reply))]
    pub(crate) fn next(&self, alloc: Global) -> Result<Step, NoMemory>
        ensures { IfOk result (λ step. step ≡ step_of (left_in self.now)) }
    {
        if self.made < self.all.len() {
            let change = self.all[self.made].copy(alloc)?;
            return Ok(Step::Change(change));
        }
        Ok(Step::Reply(self.counted.reply(self.all.len() as u64)))
    }
}

// One change more is made, if one is left.
fn one_more(changes: Option<Changes>) -> Option<Changes>
    ensures kept { (task : Task) (progress : Option Progress) → AreKept task progress changes → AreKept task progress result }
    ensures made { (task : Task) (progress : Option Progress) (c : Kept) (change : Changed) → changes ≡ Some c → AreKept task progress changes → progress_next task (made_in changes) progress ≡ ToChange change → made_in result ≡ made_in changes ++ change ∷ [] }
{
    let Some(Changes { counted, all, made }) = changes else {
        return None;
    };
    if made < all.len() {
        return Some(Changes {
            counted,
            all,
            made: made + 1,
        });
    }
    Some(Changes { counted, all, made })
}

/// The change that is next is made.
pub(crate) fn change_made(changes: &mut Option<Changes>)
    ensures kept { (task : Task) (progress : Option Progress) → AreKept task progress changes.old → AreKept task progress changes.new }
    ensures made { (task : Task) (progress : Option Progress) (c : Kept) (change : Changed) → changes.old ≡ Some c → AreKept task progress changes.old → progress_next task (made_in changes.old) progress ≡ ToChange change → made_in changes.new ≡ made_in changes.old ++ change ∷ [] }
{
    *changes = one_more(changes.take());
}

/// What is next of a statement with these parts. What it makes of what its scans met is worked out once.
pub(crate) fn step_in(
    alloc: Global,
    statement: &Statement,
    nest: &Nest,
    written: &Option<Plan>,
    changes: &mut Option<Changes>,
) -> Result<Step, NoMemory>
    requires { AreKept (record { statement = statement.now; plan = nest.now.plan; target = target_in written.now }) nest.now.progress changes.old }
    ensures kept { AreKept (record { statement = statement.now; plan = nest.now.plan; target = target_in written.now }) nest.now.progress changes.new }
    ensures made { made_in changes.new ≡ made_in changes.old }
    ensures asked { IfOk result (KeepsAsked changes.new) }
    ensures step { IfOk result (λ step. step ≡ step_of (progress_next (record { statement = statement.now; plan = nest.now.plan; target = target_in written.now }) (made_in changes.old) nest.now.progress)) }
{
    if nest.has_failed() {
        return Ok(Step::Refuse(Refusal::Arithmetic));
    }
    if let Some(changes) = changes {
        return changes.next(alloc);
    }
    let Some(met) = nest.met() else {
        return Ok(Step::Visit);
    };
    match decide(alloc, statement, nest.plan(), target(written), met)? {
        Decision::Refused(refusal) => Ok(Step::Refuse(refusal)),
        Decision::Shown(rows) => Ok(Step::Reply(Reply::Rows(rows))),
        Decision::Changing {
            counted,
            changes: all,
        } => {
            let kept = Changes {
                counted,
                all,
                made: 0,
            };
            let step = kept.next(alloc)?;
            *changes = Some(kept);
            Ok(step)
        }
    }
}

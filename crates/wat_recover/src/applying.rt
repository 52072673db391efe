ghost use Rattle.std.specs.Prelude.{◌≡◌, true, IfOk};
ghost use Rattle.wat_log_record.specs.Encoding.{IsWritable, IsWritableChange};
ghost use Rattle.wat_log_record.specs.declared.log_record.LogRecord.TheVariants as entries;
ghost use Rattle.wat_replay.specs.State.{State, IsLawful};
ghost use Rattle.wat_recover.specs.Goes.{Answers, Went};

use crate::changing::may_change;
use crate::target::{Target, TargetError};
use crate::undoing::undo_to;
use std::alloc::Global;
use wat_list::Copied;
use wat_log_record::LogRecord;
use wat_value::{Change, SchemaChange};

fn make_change<T: Target>(
    alloc: Global,
    target: &mut T,
    conn: u16,
    change: &Change,
) -> Result<bool, TargetError>
    requires { IsWritableChange change.now }
    ensures answers { (s : State) → T.stands_for target.old s → IsLawful s → IfOk result (λ applied. Answers (T.stands_for target.new) (entries.Changed conn change.now) s applied) }
    ensures went { Went T.goes T.failures target.old target.new (result ≡ Err TargetError.Failed) }
{
    if !may_change(alloc, target, conn, change)? {
        return Ok(false);
    }
    let kept = change.copy(alloc)?;
    target.make(change)?;
    target.push(conn, kept)?;
    Ok(true)
}

fn cut_list<T: Target>(target: &mut T, conn: u16, count: u32) -> Result<bool, TargetError>
    ensures answers { (s : State) → T.stands_for target.old s → IsLawful s → IfOk result (λ applied. Answers (T.stands_for target.new) (entries.UndoTo conn count) s applied) }
    ensures went { Went T.goes T.failures target.old target.new (result ≡ Err TargetError.Failed) }
{
    if target.count(conn) < count {
        return Ok(false);
    }
    undo_to(target, conn, count)?;
    Ok(true)
}

fn commit<T: Target>(target: &mut T, conn: u16)
    ensures answers { (s : State) → T.stands_for target.old s → IsLawful s → Answers (T.stands_for target.new) (entries.Commit conn) s true }
    ensures went { Went T.goes T.failures target.old target.new ⊥ }
{
    let standing = target.count(conn);
    for _i in 0..standing {
        let _ = target.pop(conn);
    }
}

fn roll_back<T: Target>(target: &mut T, conn: u16) -> Result<bool, TargetError>
    ensures answers { (s : State) → T.stands_for target.old s → IsLawful s → IfOk result (λ applied. Answers (T.stands_for target.new) (entries.Rollback conn) s applied) }
    ensures went { Went T.goes T.failures target.old target.new (result ≡ Err TargetError.Failed) }
{
    undo_to(target, conn, 0)?;
    Ok(true)
}

fn alter<T: Target>(target: &mut T, change: &SchemaChange) -> Result<bool, TargetError>
    ensures answers { (s : State) → T.stands_for target.old s → IsLawful s → IfOk result (λ applied. Answers (T.stands_for target.new) (entries.Schema change.now) s applied) }
    ensures went { Went T.goes T.failures target.old target.new (result ≡ Err TargetError.Failed) }
{
    if target.next_open(0).is_some() {
        return Ok(false);
    }
    if !target.schema().allows(change) {
        return Ok(false);
    }
    target.alter(change)?;
    Ok(true)
}

/// Makes the record on the target where it applies, and answers whether it does. Where it doesn't, nothing has changed.
///
/// The target stands for a lawful state; it then stands for the next one.
pub fn apply_to<T: Target>(
    alloc: Global,
    target: &mut T,
    entry: &LogRecord,
) -> Result<bool, TargetError>
    requires { IsWritable entry.now }
    ensures answers { (s : State) → T.stands_for target.old s → IsLawful s → IfOk result (λ applied. Answers (T.stands_for target.new) entry.now s applied) }

    // What goes on beside the state goes on, and the answer is `Failed` exactly where a failure was counted.
    ensures went { Went T.goes T.failures target.old target.new (result ≡ Err TargetError.Failed) }
{
    match entry {
        LogRecord::Changed { conn, change } => make_change(alloc, target, *conn, change),
        LogRecord::UndoTo { conn, count } => cut_list(target, *conn, *count),
        LogRecord::Commit { conn } => {
            commit(target, *conn);
            Ok(true)
        }
        LogRecord::Rollback { conn } => roll_back(target, *conn),
        LogRecord::Schema(change) => alter(target, change),
    }
}

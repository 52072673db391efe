ghost use Rattle.std.specs.Prelude.{◌≡◌, ◌+◌, ◌≤◌, ℕ, length, Some, OnOk};
ghost use Rattle.wat_schema.specs.Tables.{Tables};
ghost use Rattle.wat_replay.specs.State.{State, IsLawful, no_lists, undone};
ghost use Rattle.wat_replay.specs.Replay.{Applies};
ghost use Rattle.wat_log_record.specs.declared.log_record.LogRecord.TheVariants as entries;
ghost use Rattle.wat_recover.specs.Goes.{Went};

use crate::changing::inverse;
use crate::target::{Target, TargetError};

/// Undoes the connection's last change.
fn undo_last<T: Target>(target: &mut T, conn: u16) -> Result<(), TargetError>
    ensures undone { (s : State) (n : ℕ) → T.stands_for target.old s → IsLawful s → length (s.lists conn) ≡ n + 1
        → OnOk result ((next : State) × Applies (entries.UndoTo conn n) s next × T.stands_for target.new next) }
    ensures went { Went T.goes T.failures target.old target.new (result ≡ Err TargetError.Failed) }
{
    match target.pop(conn) {
        Some(change) => target.make(&inverse(change)),
        None => Ok(()),
    }
}

/// Undoes the connection's changes, the last one first, until so many are left.
pub(crate) fn undo_to<T: Target>(target: &mut T, conn: u16, count: u32) -> Result<(), TargetError>
    ensures undone { (s : State) → T.stands_for target.old s → IsLawful s → count ≤ length (s.lists conn)
        → OnOk result ((next : State) × Applies (entries.UndoTo conn count) s next × T.stands_for target.new next) }
    ensures went { Went T.goes T.failures target.old target.new (result ≡ Err TargetError.Failed) }
{
    let standing = target.count(conn);
    for _i in count..standing {
        undo_last(target, conn)?;
    }
    Ok(())
}

/// Undoes the changes of all connections, in the order of their numbers.
///
/// Where the target stands for a lawful state, it then stands for what is committed there, and no list has a change.
pub fn undo_on<T: Target>(target: &mut T) -> Result<(), TargetError>
    ensures undone { (s : State) (t : Tables) → T.stands_for target.old s → IsLawful s → undone s ≡ Some t
        → OnOk result (T.stands_for target.new (record { tables = t; lists = no_lists })) }
    ensures went { Went T.goes T.failures target.old target.new (result ≡ Err TargetError.Failed) }
{
    let mut from = 0;
    while let Some(conn) = target.next_open(from) {
        undo_to(target, conn, 0)?;
        from = u32::from(conn) + 1;
    }
    Ok(())
}

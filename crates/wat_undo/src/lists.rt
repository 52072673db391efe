// Lists of changes in a map by connections, of those alone that have changes.
ghost use Rattle.std.specs.Prelude.{◌≡◌, ◌<◌, ◌^◌, ◌++◌, ◌∷◌, [], length, MatchOption, IfOk, OnOk, OnErr};
ghost use Rattle.std.specs.List.{AllByRecursion};
ghost use Rattle.wat_log_record.specs.Encoding.{IsWritableChange};
ghost use Rattle.wat_replay.specs.State.{with_list};
ghost use Rattle.wat_recover.specs.Goes.{Popped};
ghost use Rattle.wat_recover.specs.Listed.{IsLeastFrom};
ghost use Rattle.wat_undo.specs.Kept.{lists_of, AreOpen};

use std::alloc::{AllocError, Global};
use std::collections::BTreeMap;
use wat_list::{Items, NoMemory};
use wat_value::Change;

/// The changes of one connection, in the order in which they were made.
pub type Changes = Items<Change>;

/// Adds a change at the end of a list. Where it has 4,294,967,295, memory is wanted.
fn add(list: &mut Changes, change: Change) -> Result<(), NoMemory>
    ensures added { OnOk result (list.new ≡ list.old ++ change ∷ []) }
    ensures few { OnOk result (length list.new < 2 ^ 32) }
    ensures kept { OnErr result (list.new ≡ list.old) }
{
    if list.len() >= 4_294_967_295 {
        return Err(AllocError);
    }
    list.push(change)
}

/// Gives a connection without changes this one.
fn begin(
    alloc: Global,
    lists: &mut BTreeMap<u16, Changes>,
    conn: u16,
    change: Change,
) -> Result<(), NoMemory>
    requires open { AreOpen lists.old.entries }
    requires writable { IsWritableChange change }
    ensures begun { OnOk result (lists_of lists.new.entries ≡ with_list conn (change ∷ []) (lists_of lists.old.entries)) }
    ensures kept { OnErr result (lists_of lists.new.entries ≡ lists_of lists.old.entries) }
    ensures open { AreOpen lists.new.entries }
{
    let mut list = Items::new(alloc);
    list.push(change)?;
    lists.insert(conn, list)?;
    Ok(())
}

pub(crate) fn push_to(
    alloc: Global,
    lists: &mut BTreeMap<u16, Changes>,
    conn: u16,
    change: Change,
) -> Result<(), NoMemory>
    requires open { AreOpen lists.old.entries }
    requires writable { IsWritableChange change }
    ensures pushed { OnOk result (lists_of lists.new.entries ≡ with_list conn (lists_of lists.old.entries conn ++ change ∷ []) (lists_of lists.old.entries)) }
    ensures kept { OnErr result (lists_of lists.new.entries ≡ lists_of lists.old.entries) }
    ensures open { AreOpen lists.new.entries }
{
    match lists.get_mut(&conn) {
        Some(list) => match add(list, change) {
            Ok(()) => Ok(()),
            Err(error) => Err(error),
        },
        None => match begin(alloc, lists, conn, change) {
            Ok(()) => Ok(()),
            Err(error) => Err(error),
        },
    }
}

pub(crate) fn pop_from(lists: &mut BTreeMap<u16, Changes>, conn: u16) -> Option<Change>
    requires { AreOpen lists.old.entries }
    ensures popped { MatchOption result ((lists_of lists.old.entries conn ≡ []) × (lists.new.entries ≡ lists.old.entries)) (λ change. Popped conn change (lists_of lists.old.entries) (lists_of lists.new.entries)) }
    ensures open { AreOpen lists.new.entries }
{
    let Some(list) = lists.get_mut(&conn) else {
        return None;
    };
    let Some(change) = list.pop() else {
        return None;
    };
    if list.is_empty() {
        lists.remove(&conn);
        return Some(change);
    }
    Some(change)
}

pub(crate) fn least_from(lists: &BTreeMap<u16, Changes>, from: u32) -> Option<u16>
    requires { AreOpen lists.now.entries }
    ensures { IsLeastFrom from (lists_of lists.now.entries) result }
{
    if from > 65_535 {
        return None;
    }
    match lists.range(from as u16..).next() {
        Some((conn, _)) => Some(*conn),
        None => None,
    }
}

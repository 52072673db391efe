// The bytes of a payload to the changes of connections.
//
// Each function but the last reads what the bytes begin with, and gives back the rest behind it. It answers `None` exactly
// where they begin with no such thing.
ghost use Rattle.std.specs.Prelude.{◌≡◌, ◌≤◌, ◌<◌, ◌+◌, ◌++◌, ℕ, List, length, IfOk, IfSome, IfNone, MatchOption};
ghost use Rattle.std.specs.List.{flat_map};
ghost use Rattle.wat_log_record.specs.Encoding.{change_bytes};
ghost use Rattle.wat_log_record.specs.Reading.{Begins, BeginsNone};
ghost use Rattle.wat_undo.specs.Payload.{entry_bytes, AreChanges, IsEncodableEntry};

use crate::Changes;
use std::alloc::Global;
use wat_list::{Items, NoMemory};
use wat_record::{read_change, read_count, read_number};

/// That many changes.
fn read_changes(
    alloc: Global,
    count: u32,
    bytes: &[u8],
) -> Result<Option<(Changes, &[u8])>, NoMemory>
    ensures { IfOk result (λ o. MatchOption o (BeginsNone (flat_map change_bytes) (AreChanges count) bytes.now) (λ x. Begins (flat_map change_bytes) (AreChanges count) bytes.now x.0 x.1.now)) }
{
    let mut changes = Items::new(alloc);
    let mut rest = bytes;
    for _i in 0..count {
        match read_change(alloc, rest)? {
            Some((change, behind)) => {
                changes.push(change)?;
                rest = behind;
            }
            None => return Ok(None),
        }
    }
    Ok(Some((changes, rest)))
}

/// A connection and its changes.
pub(crate) fn read_entry(
    alloc: Global,
    bytes: &[u8],
) -> Result<Option<((u16, Changes), &[u8])>, NoMemory>
    ensures { IfOk result (λ o. MatchOption o (BeginsNone entry_bytes IsEncodableEntry bytes.now) (λ x. Begins entry_bytes IsEncodableEntry bytes.now x.0 x.1.now)) }
{
    let Some((conn, rest)) = read_count(bytes) else {
        return Ok(None);
    };
    let Some((count, rest)) = read_number(rest) else {
        return Ok(None);
    };
    match read_changes(alloc, count, rest)? {
        Some((changes, rest)) => Ok(Some(((conn, changes), rest))),
        None => Ok(None),
    }
}

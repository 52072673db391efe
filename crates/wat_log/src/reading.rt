// The records of a frame's body are read.
ghost use Rattle.std.specs.Prelude.{◌≡◌, ◌≢◌, ◌≤◌, ◌++◌, List, length, take, true, IfOk};
ghost use Rattle.std.specs.Bool.{OnTrue, OnFalse};
ghost use Rattle.wat_log.specs.Reading.{AddsRecords, SpellsNone};

use std::alloc::Global;
use wat_list::NoMemory;
use wat_record::{LogRecords, read_record};

/// Keeps the first records.
fn cut_to(entries: &mut LogRecords, count: usize)
    requires { count ≤ length entries.old }
    ensures { entries.new ≡ take count entries.old }
{
    while entries.len() > count {
        entries.pop();
    }
}

/// Adds the records that the body spells, up to the first bytes that begin with none; `false` where there are such, or
/// where the body is empty. Behind an answer that isn't `Ok(true)` some records stand at the end of `into`.
fn push_records(alloc: Global, body: &[u8], into: &mut LogRecords) -> Result<bool, NoMemory>
    ensures read { IfOk result (λ read. OnTrue read (AddsRecords body.now into.old into.new)) }
    ensures none { IfOk result (λ read. OnFalse read (SpellsNone body.now)) }
    ensures kept { take (length into.old) into.new ≡ into.old }
{
    let mut rest = body;
    while !rest.is_empty() {
        match read_record(alloc, rest)? {
            Some((entry, len)) => {
                into.push(entry)?;
                rest = &rest[len..];
            }
            None => return Ok(false),
        }
    }
    Ok(!body.is_empty())
}

/// Adds the records that the body spells; `false` exactly where it spells none. Else than after `Ok(true)` `into` is as before.
pub fn read_records(alloc: Global, body: &[u8], into: &mut LogRecords) -> Result<bool, NoMemory>
    ensures read { IfOk result (λ read. OnTrue read (AddsRecords body.now into.old into.new)) }
    ensures none { IfOk result (λ read. OnFalse read (SpellsNone body.now)) }
    ensures kept { result ≢ Ok true → into.new ≡ into.old }
{
    let held = into.len();
    match push_records(alloc, body, into) {
        Ok(true) => Ok(true),
        refused => {
            cut_to(into, held);
            refused
        }
    }
}

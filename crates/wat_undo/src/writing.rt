// The changes of connections to the bytes of a payload.
ghost use Rattle.std.specs.Prelude.{◌≡◌, ◌<◌, ◌^◌, ◌++◌, length, OnOk};
ghost use Rattle.std.specs.List.{flat_map, AllByRecursion};
ghost use Rattle.wat_log_record.specs.Encoding.{change_bytes, IsEncodableChange, IsWritableChange};
ghost use Rattle.wat_undo.specs.Payload.{entry_bytes, IsEncodableEntry};

use crate::Changes;
use wat_list::NoMemory;
use wat_record::{push_change, push_count, push_number};
use wat_value::Change;

fn push_changes(changes: &[Change], out: &mut Vec<u8>) -> Result<(), NoMemory>
    requires { AllByRecursion IsWritableChange changes.now }
    ensures ok { OnOk result (out.new.items ≡ out.old.items ++ flat_map change_bytes changes.now) }
    ensures encodable { OnOk result (AllByRecursion IsEncodableChange changes.now) }
{
    for change in changes {
        push_change(change, out)?;
    }
    Ok(())
}

pub(crate) fn push_entry(conn: u16, changes: &Changes, out: &mut Vec<u8>) -> Result<(), NoMemory>
    requires few { length changes.now < 2 ^ 32 }
    requires writable { AllByRecursion IsWritableChange changes.now }
    ensures ok { OnOk result (out.new.items ≡ out.old.items ++ entry_bytes (conn, changes.now)) }
    ensures encodable { OnOk result (IsEncodableEntry (conn, changes.now)) }
{
    push_count(conn, out)?;
    push_number(changes.len() as u32, out)?;
    push_changes(changes.as_slice(), out)
}

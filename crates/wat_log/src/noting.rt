// The frame of the records that are noted: it grows record by record, and is kept as it is to be written.
ghost use Rattle.std.specs.Prelude.{◌≡◌, ◌+◌, ◌≤◌, [], ◌++◌, length, OnOk, OnErr};
ghost use Rattle.wat_gate.specs.GateLog.{HasRoom};
ghost use Rattle.wat_log.specs.Room.{HasCommitRoom};
ghost use Rattle.wat_log_record.specs.Encoding.{record_bytes};
ghost use Rattle.wat_log_record.specs.declared.log_record.LogRecord.TheVariants as entry;

use byteorder::{BigEndian, ByteOrder};
use std::alloc::AllocError;
use wat_gate::{Frame, GateLog};
use wat_list::NoMemory;

/// How many bytes a Commit record takes.
pub(crate) const COMMIT_SIZE: usize = 3;

/// The byte in front of a Commit record.
const COMMIT: u8 = 3;

/// The bytes of a Commit record.
#[tactic(auto, unfolding(wat_value::specs::Encoding::count_bytes))]
pub(crate) fn commit_bytes(conn: u16) -> [u8; COMMIT_SIZE]
    ensures { result ≡ record_bytes (entry.Commit conn) }
{
    let mut bytes = [COMMIT, 0, 0];
    BigEndian::write_u16(&mut bytes[1..], conn);
    bytes
}

/// Adds bytes in the room that is there.
pub(crate) fn push_within(frame: &mut Frame, bytes: &[u8])
    requires room { length bytes.now ≤ frame.old.spare }
    requires short { length frame.old.body + length bytes.now ≤ 2000000 }
    ensures body { frame.new.body ≡ frame.old.body ++ bytes.now }
    ensures spare { frame.old.spare ≤ frame.new.spare + length bytes.now }
{
    match frame.push(bytes) {
        Ok(()) => {}
        Err(_) => unreachable!(),
    }
}

/// Puts these bytes into the frame in place of its body, which has no fewer.
fn cut_to(frame: &mut Frame, bytes: &[u8])
    requires no_longer { length bytes.now ≤ length frame.old.body }
    requires short { length bytes.now ≤ 2000000 }
    ensures body { frame.new.body ≡ bytes.now }
    ensures spare { frame.old.spare + length frame.old.body ≤ frame.new.spare + length bytes.now }
{
    frame.clear();
    push_within(frame, bytes);
}

/// Adds bytes to the frame, whose body is `held`, where there is memory and the log has room for them. Else the frame is as before.
pub(crate) fn grow(
    gate: &GateLog,
    frame: &mut Frame,
    held: &[u8],
    more: &[u8],
) -> Result<(), NoMemory>
    requires held { frame.old.body ≡ held.now }
    requires short { length held.now + length more.now ≤ 2000000 }
    ensures ok { OnOk result (frame.new.body ≡ held.now ++ more.now) }
    ensures room { OnOk result (HasRoom gate.now (held.now ++ more.now)) }
    ensures err { OnErr result (frame.new.body ≡ held.now) }
{
    frame.push(more)?;
    if gate.has_room(frame) {
        return Ok(());
    }
    cut_to(frame, held);
    Err(AllocError)
}

/// Makes room for a Commit record behind the body, which is `held`: in memory, and in the log.
pub(crate) fn make_commit_room(
    gate: &GateLog,
    frame: &mut Frame,
    held: &[u8],
) -> Result<(), NoMemory>
    requires held { frame.old.body ≡ held.now }
    requires short { length held.now ≤ 1948576 }
    ensures body { frame.new.body ≡ held.now }
    ensures room { OnOk result (3 ≤ frame.new.spare) }
    ensures log_room { OnOk result (HasCommitRoom gate.now held.now) }
{
    grow(gate, frame, held, &[0; COMMIT_SIZE])?;
    cut_to(frame, held);
    Ok(())
}

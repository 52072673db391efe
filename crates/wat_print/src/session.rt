ghost use Rattle.std.specs.Prelude.{◌≡◌, ◌++◌, OnOk, OnErr};
ghost use Rattle.std.specs.List.{flat_map, enumerate_from};
ghost use Rattle.wat_print.specs.Printed.{entry_text, connection_text, stop_text, printed};

use crate::answer::{push_answer, push_stop};
use crate::lines::push_count;
use crate::literal::push_number;
use wat_conn::{Entry, Reason, Session, TableName, Transcript};
use wat_list::NoMemory;

fn push_entry(
    out: &mut Vec<u8>,
    names: &[TableName],
    number: usize,
    entry: &Entry,
) -> Result<(), NoMemory>
    ensures { OnOk result (out.new.items ≡ out.old.items ++ entry_text names.now (number, entry.now)) }
{
    push_number(out, number as u64)?;
    out.extend_from_slice(b": ")?;
    push_answer(out, names, &entry.answer)
}

fn push_entries(out: &mut Vec<u8>, names: &[TableName], entries: &[Entry]) -> Result<(), NoMemory>
    ensures { OnOk result (out.new.items ≡ out.old.items ++ flat_map (entry_text names.now) (enumerate_from 1 entries.now)) }
{
    for (i, entry) in entries.iter().enumerate() {
        push_entry(out, names, i + 1, entry)?;
    }
    Ok(())
}

fn push_connection(
    out: &mut Vec<u8>,
    names: &[TableName],
    number: usize,
    transcript: &Transcript,
) -> Result<(), NoMemory>
    ensures { OnOk result (out.new.items ≡ out.old.items ++ connection_text names.now (number, transcript.now)) }
{
    push_count(out, b"connection ", number as u64)?;
    push_entries(out, names, transcript.as_slice())
}

fn push_connections(
    out: &mut Vec<u8>,
    names: &[TableName],
    transcripts: &[Transcript],
) -> Result<(), NoMemory>
    ensures { OnOk result (out.new.items ≡ out.old.items ++ flat_map (connection_text names.now) (enumerate_from 1 transcripts.now)) }
{
    for (i, transcript) in transcripts.iter().enumerate() {
        push_connection(out, names, i + 1, transcript)?;
    }
    Ok(())
}

fn push_end(out: &mut Vec<u8>, stop: Option<Reason>) -> Result<(), NoMemory>
    ensures { OnOk result (out.new.items ≡ out.old.items ++ stop_text stop) }
{
    match stop {
        None => Ok(()),
        Some(reason) => push_stop(out, reason),
    }
}

fn push_session(out: &mut Vec<u8>, session: &Session) -> Result<(), NoMemory>
    ensures { OnOk result (out.new.items ≡ out.old.items ++ printed session.now) }
{
    push_connections(
        out,
        session.names.as_slice(),
        session.transcripts.as_slice(),
    )?;
    push_count(out, b"commits ", session.moments.len() as u64)?;
    push_end(out, session.stop)
}

/// Appends what the session prints. A refusal leaves `out` as it was, since the text is made whole
/// before.
pub fn printed(session: &Session, out: &mut Vec<u8>) -> Result<(), NoMemory>
    ensures ok { OnOk result (out.new.items ≡ out.old.items ++ printed session.now) }
    ensures err { OnErr result (out.new.items ≡ out.old.items) }
{
    let mut text = Vec::new(*out.allocator());
    push_session(&mut text, session)?;
    out.extend_from_slice(text.as_slice())
}

ghost use Rattle.std.specs.Prelude.{◌≡◌, ◌++◌, OnOk, codes};
ghost use Rattle.std.specs.List.{flat_map, join_by};
ghost use Rattle.wat_print.specs.Answers.{row_line, reply_text, locked_text, edge_text, deadlock_text, file_text, reason_text, stop_line, answer_text};

use crate::lines::{push_count, push_line};
use crate::literal::{push_number, push_row};
use crate::lock::push_lock;
use crate::refusal::push_refusal;
use wat_conn::{Answer, Reason, Reply, TableName};
use wat_cycle::Edge;
use wat_disk::FileId;
use wat_list::NoMemory;
use wat_locks::Against;
use wat_value::{Row, Rows};

fn push_row_lines(out: &mut Vec<u8>, rows: &[Row]) -> Result<(), NoMemory>
    ensures { OnOk result (out.new.items ≡ out.old.items ++ flat_map row_line rows.now) }
{
    for row in rows {
        push_row(out, row)?;
        out.extend_from_slice(b"\n")?;
    }
    Ok(())
}

fn push_rows(out: &mut Vec<u8>, rows: &Rows) -> Result<(), NoMemory>
    ensures { OnOk result (out.new.items ≡ out.old.items ++ reply_text (Reply.Rows rows.now)) }
{
    push_count(out, b"rows ", rows.len() as u64)?;
    push_row_lines(out, rows.as_slice())
}

fn push_reply(out: &mut Vec<u8>, reply: &Reply) -> Result<(), NoMemory>
    ensures { OnOk result (out.new.items ≡ out.old.items ++ reply_text reply.now) }
{
    match reply {
        Reply::Rows(rows) => push_rows(out, rows),
        Reply::Inserted(count) => push_count(out, b"inserted ", *count),
        Reply::Updated(count) => push_count(out, b"updated ", *count),
        Reply::Deleted(count) => push_count(out, b"deleted ", *count),
        Reply::Created(number) => push_count(out, b"created ", *number),
        Reply::Dropped(number) => push_count(out, b"dropped ", *number),
        Reply::Committed(number) => push_count(out, b"committed ", *number),
        Reply::NothingToCommit => push_line(out, b"nothing to commit"),
        Reply::RolledBack => push_line(out, b"rolled back"),
        Reply::Savepoint => push_line(out, b"savepoint"),
        Reply::BackToSavepoint => push_line(out, b"rolled back to savepoint"),
        Reply::Released => push_line(out, b"released"),
        Reply::Checkpointed => push_line(out, b"checkpoint"),
        Reply::OptionSet => push_line(out, b"option set"),
    }
}

fn push_locked(out: &mut Vec<u8>, names: &[TableName], against: &Against) -> Result<(), NoMemory>
    ensures { OnOk result (out.new.items ≡ out.old.items ++ locked_text names.now against.now) }
{
    out.extend_from_slice(b"locked by ")?;
    push_number(out, u64::from(against.holder))?;
    out.extend_from_slice(b": ")?;
    push_lock(out, names, &against.lock)?;
    out.extend_from_slice(b"\n")
}

fn push_edge(out: &mut Vec<u8>, names: &[TableName], edge: &Edge) -> Result<(), NoMemory>
    ensures { OnOk result (out.new.items ≡ out.old.items ++ edge_text names.now edge.now) }
{
    push_number(out, u64::from(edge.from))?;
    out.extend_from_slice(b" waits for ")?;
    push_number(out, u64::from(edge.to))?;
    out.extend_from_slice(b" (")?;
    push_lock(out, names, &edge.lock)?;
    out.extend_from_slice(b")")
}

/// Appends the edges, each behind a comma.
fn push_more_edges(out: &mut Vec<u8>, names: &[TableName], edges: &[Edge]) -> Result<(), NoMemory>
    ensures { OnOk result (out.new.items ≡ out.old.items ++ flat_map (λ edge. codes ", " ++ edge_text names.now edge) edges.now) }
{
    for edge in edges {
        out.extend_from_slice(b", ")?;
        push_edge(out, names, edge)?;
    }
    Ok(())
}

fn push_edges(out: &mut Vec<u8>, names: &[TableName], edges: &[Edge]) -> Result<(), NoMemory>
    ensures { OnOk result (out.new.items ≡ out.old.items ++ join_by (edge_text names.now) (codes ", ") edges.now) }
{
    match edges {
        [] => Ok(()),
        [first, more @ ..] => {
            push_edge(out, names, first)?;
            push_more_edges(out, names, more)
        }
    }
}

fn push_deadlock(out: &mut Vec<u8>, names: &[TableName], cycle: &[Edge]) -> Result<(), NoMemory>
    ensures { OnOk result (out.new.items ≡ out.old.items ++ deadlock_text names.now cycle.now) }
{
    out.extend_from_slice(b"deadlock: ")?;
    push_edges(out, names, cycle)?;
    out.extend_from_slice(b"\n")
}

fn push_file(out: &mut Vec<u8>, file: FileId) -> Result<(), NoMemory>
    ensures { OnOk result (out.new.items ≡ out.old.items ++ file_text file.0) }
{
    match file.0 {
        0 => out.extend_from_slice(b"main"),
        1 => out.extend_from_slice(b"before"),
        2 => out.extend_from_slice(b"log"),
        3 => out.extend_from_slice(b"backup"),
        4 => out.extend_from_slice(b"copy"),
        5 => out.extend_from_slice(b"mirror"),
        6 => out.extend_from_slice(b"leader"),
        _ => out.extend_from_slice(b"spare"),
    }
}

fn push_damaged(out: &mut Vec<u8>, file: FileId, at: u64) -> Result<(), NoMemory>
    ensures { OnOk result (out.new.items ≡ out.old.items ++ reason_text (Reason.Damaged file at)) }
{
    out.extend_from_slice(b"damaged ")?;
    push_file(out, file)?;
    out.extend_from_slice(b" at ")?;
    push_number(out, at)
}

fn push_reason(out: &mut Vec<u8>, reason: Reason) -> Result<(), NoMemory>
    ensures { OnOk result (out.new.items ≡ out.old.items ++ reason_text reason) }
{
    match reason {
        Reason::DiskFault => out.extend_from_slice(b"disk fault"),
        Reason::Damaged { file, at } => push_damaged(out, file, at),
        Reason::PageLimit { .. } => out.extend_from_slice(b"page limit"),
        Reason::Memory => out.extend_from_slice(b"want of memory"),
    }
}

/// Appends the line that says why the session stopped.
pub(crate) fn push_stop(out: &mut Vec<u8>, reason: Reason) -> Result<(), NoMemory>
    ensures { OnOk result (out.new.items ≡ out.old.items ++ stop_line reason) }
{
    out.extend_from_slice(b"stopped: ")?;
    push_reason(out, reason)?;
    out.extend_from_slice(b"\n")
}

/// Appends the lines of an answer.
pub(crate) fn push_answer(
    out: &mut Vec<u8>,
    names: &[TableName],
    answer: &Answer,
) -> Result<(), NoMemory>
    ensures { OnOk result (out.new.items ≡ out.old.items ++ answer_text names.now answer.now) }
{
    match answer {
        Answer::Given(reply) => push_reply(out, reply),
        Answer::Refused(refusal) => push_refusal(out, refusal),
        Answer::Locked(against) => push_locked(out, names, against),
        Answer::Deadlock { cycle } => push_deadlock(out, names, cycle.as_slice()),
        Answer::OpenTransaction { conn } => {
            push_count(out, b"open transaction of ", u64::from(*conn))
        }
        Answer::Unsupported => push_line(out, b"unsupported"),
        Answer::Stopped { reason } => push_stop(out, *reason),
    }
}

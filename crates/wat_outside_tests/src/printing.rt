use std::alloc::{AllocError, Global};
use std::test::Fail;
use wat_conn::{Answer, Entry, Reason, Reply, Session, TableName, Transcript};
use wat_cycle::{Edge, Edges};
use wat_disk::FileId;
use wat_list::{Items, NoMemory};
use wat_locks::{Against, Lock, LockKind, Resource};
use wat_print::{printed, push_row};
use wat_schema::Refusal;
use wat_value::{Key, Name, Place, Row, Text, Value};

fn integers(alloc: Global, numbers: &[i64]) -> Result<Row, NoMemory> {
    let mut row = Items::new(alloc);
    for number in numbers {
        row.push(Value::Int(*number))?;
    }
    Ok(row)
}

fn key(alloc: Global, number: i64) -> Result<Key, NoMemory> {
    Ok(Key::of(integers(alloc, &[number])?))
}

fn name(alloc: Global, text: &str) -> Result<Name, NoMemory> {
    match Name::new(alloc, text)? {
        Some(name) => Ok(name),
        None => Err(AllocError),
    }
}

/// The row (2, 5).
fn one_row(alloc: Global) -> Result<Reply, NoMemory> {
    let mut rows = Items::new(alloc);
    rows.push(integers(alloc, &[2, 5])?)?;
    Ok(Reply::Rows(rows))
}

/// The reply that this word stands for in the tests.
fn reply_of(alloc: Global, word: &str) -> Result<Reply, NoMemory> {
    match word {
        "rows" => one_row(alloc),
        "inserted" => Ok(Reply::Inserted(1)),
        "updated" => Ok(Reply::Updated(2)),
        "deleted" => Ok(Reply::Deleted(0)),
        "created" => Ok(Reply::Created(3)),
        "dropped" => Ok(Reply::Dropped(4)),
        "committed" => Ok(Reply::Committed(1)),
        "nothing" => Ok(Reply::NothingToCommit),
        "rollback" => Ok(Reply::RolledBack),
        "savepoint" => Ok(Reply::Savepoint),
        "back" => Ok(Reply::BackToSavepoint),
        "release" => Ok(Reply::Released),
        "checkpoint" => Ok(Reply::Checkpointed),
        _ => Ok(Reply::OptionSet),
    }
}

/// The refusal that this word stands for; those of a name are of `v`, and those of a rule of rule 12.
fn refusal_of(alloc: Global, word: &str) -> Result<Refusal, NoMemory> {
    let name = name(alloc, "v")?;
    match word {
        "syntax" => Ok(Refusal::Syntax { at: 7 }),
        "table" => Ok(Refusal::NoTable { name }),
        "column" => Ok(Refusal::NoColumn { name }),
        "two" => Ok(Refusal::Ambiguous { name }),
        "type" => Ok(Refusal::WrongType { rule: 12 }),
        "there" => Ok(Refusal::TableExists { name }),
        "index" => Ok(Refusal::IndexExists { name }),
        "bad-table" => Ok(Refusal::BadTable { rule: 12 }),
        "bad-index" => Ok(Refusal::BadIndex { rule: 12 }),
        "key" => Ok(Refusal::KeyAssigned { name }),
        "arithmetic" => Ok(Refusal::Arithmetic),
        "null" => Ok(Refusal::NullValue { name }),
        "range" => Ok(Refusal::OutOfRange { name }),
        "long" => Ok(Refusal::TooLong { name }),
        "none" => Ok(Refusal::NoSavepoint { name }),
        _ => Ok(Refusal::Duplicate {
            key: key(alloc, 2)?,
        }),
    }
}

/// A lock on the row of table 1 with the key.
fn on_row(alloc: Global, kind: LockKind, number: i64) -> Result<Lock, NoMemory> {
    let key = key(alloc, number)?;
    Ok(Lock {
        kind,
        resource: Resource::Row { table: 1, key },
    })
}

fn on_gap(kind: LockKind, table: u32, index: u8, place: Place) -> Lock {
    Lock {
        kind,
        resource: Resource::Gap {
            table,
            index,
            place,
        },
    }
}

/// The lock that this word stands for.
fn lock_of(alloc: Global, word: &str) -> Result<Lock, NoMemory> {
    match word {
        "read" => on_row(alloc, LockKind::Read, -3),
        "write" => on_row(alloc, LockKind::Write, 40),
        "phantom" => Ok(on_gap(LockKind::Phantom, 1, 0, Place::At(key(alloc, 3)?))),
        "end" => Ok(on_gap(LockKind::Phantom, 1, 0, Place::End)),
        "anti" => Ok(on_gap(LockKind::AntiPhantom, 1, 2, Place::At(key(alloc, 3)?))),
        _ => Ok(on_gap(LockKind::AntiPhantom, 2, 1, Place::End)),
    }
}

/// Connection 2 waits for 1, which waits for 2.
fn two_edges(alloc: Global) -> Result<Edges, NoMemory> {
    let mut cycle = Items::new(alloc);
    for (from, to, number) in [(2, 1, 3), (1, 2, 1)] {
        let lock = on_row(alloc, LockKind::Read, number)?;
        cycle.push(Edge { from, to, lock })?;
    }
    Ok(cycle)
}

/// The answer of this kind that the word stands for.
fn answer_of(alloc: Global, kind: &str, word: &str) -> Result<Answer, NoMemory> {
    match kind {
        "given" => Ok(Answer::Given(reply_of(alloc, word)?)),
        "refused" => Ok(Answer::Refused(refusal_of(alloc, word)?)),
        "locked" => Ok(Answer::Locked(Against {
            holder: 1,
            lock: lock_of(alloc, word)?,
        })),
        "deadlock" => Ok(Answer::Deadlock {
            cycle: two_edges(alloc)?,
        }),
        "open" => Ok(Answer::OpenTransaction { conn: 64 }),
        _ => Ok(Answer::Unsupported),
    }
}

/// The transcript with these answers.
fn transcript_of(alloc: Global, answers: Vec<Answer>) -> Result<Transcript, NoMemory> {
    let mut transcript = Transcript::new(alloc);
    for answer in answers {
        transcript.try_push(Entry {
            from: 0,
            to: 0,
            level: 0,
            answer,
            acts: Items::new(alloc),
        })?;
    }
    Ok(transcript)
}

/// Table 1, which is called t, with the indexes by_v and by_w.
fn table_t(alloc: Global) -> Result<TableName, NoMemory> {
    let mut indexes = Items::new(alloc);
    indexes.push(name(alloc, "by_v")?)?;
    indexes.push(name(alloc, "by_w")?)?;
    Ok(TableName {
        number: 1,
        name: name(alloc, "t")?,
        indexes,
    })
}

/// The session of a connection that was asked nothing and of one with these answers.
fn session_of(alloc: Global, answers: Vec<Answer>) -> Result<Session, NoMemory> {
    let mut session = Session::new(alloc);
    session.transcripts.push(Transcript::new(alloc))?;
    session.transcripts.push(transcript_of(alloc, answers)?)?;
    session.names.push(table_t(alloc)?)?;
    Ok(session)
}

/// What a session of these answers prints behind its first lines.
fn text_of(alloc: Global, kind: &str, words: &str) -> Result<Vec<u8>, NoMemory> {
    let mut answers = Vec::new(alloc);
    for word in words.split(' ') {
        answers.push(answer_of(alloc, kind, word)?)?;
    }
    let mut out = Vec::new(alloc);
    printed(&session_of(alloc, answers)?, &mut out)?;
    Ok(out)
}

#[test]
fn each_answer_has_its_line(rt: HostRuntime) -> Result<(), Fail> {
    let rows = [
        (
            "given",
            "rows inserted updated deleted created dropped committed nothing rollback savepoint back release checkpoint option",
            "1: rows 1\n(2, 5)\n2: inserted 1\n3: updated 2\n4: deleted 0\n5: created 3\n6: dropped 4\n7: committed 1\n8: nothing to commit\n9: rolled back\n10: savepoint\n11: rolled back to savepoint\n12: released\n13: checkpoint\n14: option set\n",
        ),
        (
            "refused",
            "syntax table column two type there index bad-table bad-index key arithmetic null range long none duplicate",
            "1: error Syntax at 7\n2: error NoTable v\n3: error NoColumn v\n4: error Ambiguous v\n5: error WrongType rule 12\n6: error TableExists v\n7: error IndexExists v\n8: error BadTable rule 12\n9: error BadIndex rule 12\n10: error KeyAssigned v\n11: error Arithmetic\n12: error NullValue v\n13: error OutOfRange v\n14: error TooLong v\n15: error NoSavepoint v\n16: error Duplicate (2)\n",
        ),
        (
            "locked",
            "read write phantom end anti other",
            "1: locked by 1: read on t (-3)\n2: locked by 1: write on t (40)\n3: locked by 1: phantom on t.primary (3)\n4: locked by 1: phantom on t.primary end\n5: locked by 1: anti-phantom on t.by_w (3)\n6: locked by 1: anti-phantom on 2.1 end\n",
        ),
        (
            "deadlock",
            "two",
            "1: deadlock: 2 waits for 1 (read on t (3)), 1 waits for 2 (read on t (1))\n",
        ),
        ("open", "one", "1: open transaction of 64\n"),
        ("other", "one", "1: unsupported\n"),
    ];
    for (kind, words, text) in rows {
        let out = text_of(rt.alloc(), kind, words)?;
        let whole = format!(in rt.alloc(); "connection 1\nconnection 2\n{text}commits 0\n")?;
        assert_eq!(rt; out.as_slice(), whole.as_bytes());
    }
    Ok(())
}

/// What a session of one stopped statement prints, with so many commits, behind what stands.
fn stopped_text(alloc: Global, reason: Reason, commits: u64) -> Result<Vec<u8>, NoMemory> {
    let mut answers = Vec::new(alloc);
    answers.push(Answer::Stopped { reason })?;
    let mut session = session_of(alloc, answers)?;
    for moment in 0..commits {
        session.moments.try_push(moment)?;
    }
    session.stop = Some(reason);
    let mut out = Vec::from_slice(alloc, b"> ")?;
    printed(&session, &mut out)?;
    Ok(out)
}

#[test]
fn a_stop_stands_at_its_statement_and_at_the_end(rt: HostRuntime) -> Result<(), Fail> {
    let damaged = Reason::Damaged {
        file: FileId(2),
        at: 28,
    };
    let limit = Reason::PageLimit {
        count: 16,
        limit: 16,
    };
    let rows = [
        (Reason::DiskFault, 1, "disk fault"),
        (damaged, 0, "damaged log at 28"),
        (limit, 3, "page limit"),
        (Reason::Memory, 0, "want of memory"),
    ];
    for (reason, commits, text) in rows {
        let out = stopped_text(rt.alloc(), reason, commits)?;
        let whole = format!(in rt.alloc();
            "> connection 1\nconnection 2\n1: stopped: {text}\ncommits {commits}\nstopped: {text}\n"
        )?;
        assert_eq!(rt; out.as_slice(), whole.as_bytes());
    }
    Ok(())
}

#[test]
fn values_are_written_as_sql_writes_them(rt: HostRuntime) -> Result<(), Fail> {
    let mut row = integers(rt.alloc(), &[0, -2147483648])?;
    row.push(Value::Null)?;
    row.push(Value::Text(Text::of(rt.alloc(), "it's")?))?;
    row.push(Value::Text(Text::of(rt.alloc(), "")?))?;
    let mut out = Vec::new(rt.alloc());
    push_row(&mut out, &row)?;
    assert_eq!(rt;
        out.as_slice(),
        b"(0, -2147483648, NULL, 'it''s', '')".as_slice()
    );
    Ok(())
}

#[test]
fn a_session_begins_with_nothing_asked(rt: HostRuntime) -> Result<(), Fail> {
    let mut out = Vec::new(rt.alloc());
    printed(&Session::new(rt.alloc()), &mut out)?;
    assert_eq!(rt; out.as_slice(), b"commits 0\n".as_slice());
    Ok(())
}

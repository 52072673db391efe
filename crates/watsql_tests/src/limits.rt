// What a transaction may change.
use crate::calls::played;
use std::alloc::{AllocError, Global};
use std::test::Fail;
use wat_conn::{Answer, Entry, Reply, Session};

/// A table with a wide column, and so many rows of it in one transaction, the records of which take 2,022 bytes each.
fn wide_rows(alloc: Global, count: u32) -> Result<String, AllocError> {
    let mut wide = String::new(alloc);
    for _i in 0..2000 {
        wide.push_str("x")?;
    }
    let mut script = String::from_str(
        alloc,
        "CREATE TABLE w (k INTEGER PRIMARY KEY, s VARCHAR(2000));",
    )?;
    for k in 0..count {
        let insert = format!(in alloc; "INSERT INTO w VALUES ({k}, '{wide}');")?;
        script.push_str(insert.as_str())?;
    }
    script.push_str("SELECT COUNT(*) FROM w; COMMIT; DELETE FROM w; COMMIT;")?;
    Ok(script)
}

// The entry of the statement, counted from 0, of the only script.
fn entry(session: &Session, statement: usize) -> Option<&Entry> {
    match session.transcripts.as_slice() {
        [transcript] => transcript.as_slice().get(statement),
        _ => None,
    }
}

fn is_unsupported(entry: Option<&Entry>) -> bool {
    matches!(entry.map(|entry| &entry.answer), Some(Answer::Unsupported))
}

fn commits(entry: Option<&Entry>, number: u64) -> bool {
    matches!(entry.map(|entry| &entry.answer), Some(Answer::Given(Reply::Committed(k))) if *k == number)
}

/// 989 records have 1,999,758 bytes, and the next one would go past 1,999,997. A DELETE of all rows has as many bytes, and fits.
#[test]
fn a_transaction_has_a_longest_record(rt: HostRuntime) -> Result<(), Fail> {
    let script = wide_rows(rt.alloc(), 990)?;
    let finish = played(rt.alloc(), "run a.sql", &[0], script.as_str())?;
    assert_eq!(rt; finish.status, 0);
    let session = &finish.session;
    assert!(rt; !is_unsupported(entry(session, 989)));
    assert!(rt; is_unsupported(entry(session, 990)));
    assert!(rt; commits(entry(session, 992), 2));
    assert!(rt; commits(entry(session, 994), 3));
    assert!(rt; entry(session, 995).is_none());
    Ok(())
}

// The log is read back as SQL by the program.
use crate::calls::{Around, FIRST_LOG, call_on, is_answered, over, played};
use std::test::Fail;

const FIRST_SQL: &str =
    "CREATE TABLE t (k INTEGER NOT NULL, v INTEGER, PRIMARY KEY (k));\nINSERT INTO t VALUES (1, 10);\nINSERT INTO t VALUES (3, 30);\nINSERT INTO t VALUES (5, 50);\nCOMMIT;\n";

/// Texts with quotes, NULL, a number below zero, a DELETE that is rolled back, and an UPDATE.
const NOTES: &str =
    "CREATE TABLE n (k INTEGER PRIMARY KEY, s VARCHAR(20)); INSERT INTO n VALUES (1, 'it''s'); INSERT INTO n VALUES (-2147483648, NULL); COMMIT; DELETE FROM n; ROLLBACK; UPDATE n SET s = 'x' WHERE k = 1; COMMIT; DELETE FROM n;";

const NOTES_SQL: &str =
    "CREATE TABLE n (k INTEGER NOT NULL, s VARCHAR(20), PRIMARY KEY (k));\nINSERT INTO n VALUES (1, 'it''s');\nINSERT INTO n VALUES (-2147483648, NULL);\nCOMMIT;\nUPDATE n SET s = 'x' WHERE k = 1;\nCOMMIT;\n";

/// The log of a script is written as SQL, and so is the log of that SQL.
#[test]
fn a_log_is_written_as_statements(rt: HostRuntime) -> Result<(), Fail> {
    let alloc = rt.alloc();
    for script in [NOTES, NOTES_SQL] {
        let ran = played(alloc, "run a.sql", &[0], script)?;
        assert_eq!(rt; ran.status, 0);
        assert!(rt; ran.text.is_empty());
        let none = over(&[0], b"");
        let (finish, wrote) = call_on(alloc, "translate", &none, ran.disk, NOTES_SQL.as_bytes())?;
        assert!(rt; wrote);
        assert_eq!(rt; finish.status, 0);
        assert_eq!(rt; finish.text.as_slice(), NOTES_SQL.as_bytes());
    }
    Ok(())
}

#[test]
fn each_status_of_translate_has_its_cause(rt: HostRuntime) -> Result<(), Fail> {
    let well = over(&FIRST_LOG, b"");
    let empty = Around { log: &[0], ..well };
    let absent = Around { log: &[], ..well };
    let open = Around {
        log: &[0xa5],
        ..well
    };
    let cut = Around {
        log: &FIRST_LOG[..100],
        ..well
    };
    let no_disk = Around {
        disk: Some(0),
        ..well
    };
    let short = Around { room: 12, ..well };
    for (line, around, status, text) in [
        ("translate", well, 0, FIRST_SQL),
        ("translate", empty, 0, ""),
        ("translate a.sql", well, 1, "watsql: usage\n"),
        ("translate", absent, 3, "watsql: no database\n"),
        ("translate", open, 3, "watsql: damaged log at 0\n"),
        ("translate", cut, 3, "watsql: damaged log at 28\n"),
        ("translate", no_disk, 4, "watsql: disk fault\n"),
        ("translate", short, 5, "CREATE TABLE"),
    ] {
        assert!(rt;
            is_answered(rt.alloc(), line, &around, status, text.as_bytes())?,
            "{line} {text}"
        );
    }
    Ok(())
}

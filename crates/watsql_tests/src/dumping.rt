// The tables are written as SQL by the program.
use crate::calls::{Around, FIRST_LOG, call_on, has_log, is_logged, over, played};
use std::test::Fail;
use wat_commit_log::LOG;
use wat_disk::Disk;

const FIRST_SQL: &str =
    "CREATE TABLE t (k INTEGER NOT NULL, v INTEGER, PRIMARY KEY (k));\nINSERT INTO t VALUES (1, 10);\nINSERT INTO t VALUES (3, 30);\nINSERT INTO t VALUES (5, 50);\nCOMMIT;\n";

/// Texts with quotes, NULL, the least number, a DELETE that is rolled back, an UPDATE, and rows that are never committed.
const NOTES: &str =
    "CREATE TABLE n (k INTEGER PRIMARY KEY, s VARCHAR(20)); INSERT INTO n VALUES (1, 'it''s'); INSERT INTO n VALUES (-2147483648, NULL); COMMIT; DELETE FROM n; ROLLBACK; UPDATE n SET s = 'x' WHERE k = 1; COMMIT; DELETE FROM n;";

const NOTES_SQL: &str =
    "CREATE TABLE n (k INTEGER NOT NULL, s VARCHAR(20), PRIMARY KEY (k));\nINSERT INTO n VALUES (-2147483648, NULL);\nINSERT INTO n VALUES (1, 'x');\nCOMMIT;\n";

/// Tables of which one goes, with indexes, keys of two columns, quotes and letters that are no ASCII.
const SHOP: &str =
    "CREATE TABLE gone (k INTEGER PRIMARY KEY); CREATE TABLE sales (a INTEGER, b VARCHAR(9) NOT NULL, c INTEGER NOT NULL, PRIMARY KEY (c, b)); CREATE INDEX by_c ON sales (c); INSERT INTO sales VALUES (1, 'Zürich', 2); INSERT INTO sales VALUES (NULL, 'it''s', 1); INSERT INTO gone VALUES (4); COMMIT; DROP TABLE gone; CREATE TABLE empty (k CHAR(3) PRIMARY KEY); CREATE INDEX by_b ON sales (b, c);";

const SHOP_SQL: &str =
    "CREATE TABLE sales (a INTEGER, b VARCHAR(9) NOT NULL, c INTEGER NOT NULL, PRIMARY KEY (c, b));\nCREATE INDEX by_c ON sales (c);\nCREATE INDEX by_b ON sales (b, c);\nINSERT INTO sales VALUES (NULL, 'it''s', 1);\nINSERT INTO sales VALUES (1, 'Zürich', 2);\nCOMMIT;\nCREATE TABLE empty (k CHAR(3) NOT NULL, PRIMARY KEY (k));\n";

/// What a script leaves is written as SQL. That SQL, run on an empty database, leaves what is written as the same SQL, and both
/// times the log stays.
#[test]
fn a_dump_gives_the_same_dump(rt: HostRuntime) -> Result<(), Fail> {
    let alloc = rt.alloc();
    for (script, text) in [
        ("", ""),
        (NOTES, NOTES_SQL),
        (NOTES_SQL, NOTES_SQL),
        (SHOP, SHOP_SQL),
        (SHOP_SQL, SHOP_SQL),
    ] {
        let mut ran = played(alloc, "run a.sql", &[0], script)?;
        assert_eq!(rt; ran.status, 0);
        assert!(rt; ran.text.is_empty());
        let length = ran.disk.length(LOG)?;
        let mut log = vec![in alloc; 0; length as usize]?;
        ran.disk.read(LOG, 0, log.as_mut_slice())?;
        let none = over(&[0], b"");
        let (mut finish, wrote) = call_on(alloc, "dump", &none, ran.disk, text.as_bytes())?;
        assert!(rt; wrote);
        assert_eq!(rt; finish.status, 0);
        assert_eq!(rt; finish.text.as_slice(), text.as_bytes());
        assert!(rt; has_log(alloc, &mut finish.disk, log.as_slice())?);
    }
    Ok(())
}

/// The log read back as SQL, run on an empty database, leaves the same tables.
#[test]
fn the_log_read_back_gives_the_same_dump(rt: HostRuntime) -> Result<(), Fail> {
    let alloc = rt.alloc();
    for (script, text) in [(NOTES, NOTES_SQL), (SHOP, SHOP_SQL)] {
        let ran = played(alloc, "run a.sql", &[0], script)?;
        let none = over(&[0], b"");
        let (back, _) = call_on(alloc, "translate", &none, ran.disk, b"")?;
        let sql = match std::str::from_utf8(back.text.as_slice()) {
            Ok(sql) => sql,
            Err(_) => return Err(Fail::from("the text is no text")),
        };
        let again = played(alloc, "run a.sql", &[0], sql)?;
        let (finish, wrote) = call_on(alloc, "dump", &none, again.disk, text.as_bytes())?;
        assert!(rt; wrote);
        assert_eq!(rt; finish.status, 0);
    }
    Ok(())
}

#[test]
fn each_status_of_dump_has_its_cause(rt: HostRuntime) -> Result<(), Fail> {
    let well = over(&FIRST_LOG, b"");
    let empty = Around { log: &[0], ..well };
    let absent = Around { log: &[], ..well };
    let open = Around {
        log: &[0xa5],
        ..well
    };
    let cut = Around {
        log: &FIRST_LOG[..100],
        ..well
    };
    let no_disk = Around {
        disk: Some(0),
        ..well
    };
    let short = Around { room: 12, ..well };
    for (line, around, status, text) in [
        ("dump", well, 0, FIRST_SQL),
        ("dump", empty, 0, ""),
        ("dump a.sql", well, 1, "watsql: usage\n"),
        ("dump", absent, 3, "watsql: no database\n"),
        ("dump", open, 3, "watsql: damaged log at 0\n"),
        ("dump", cut, 3, "watsql: damaged log at 28\n"),
        ("dump", no_disk, 4, "watsql: disk fault\n"),
        ("dump", short, 5, "CREATE TABLE"),
    ] {
        assert!(rt;
            is_logged(
                rt.alloc(),
                line,
                &around,
                status,
                text.as_bytes(),
                around.log
            )?,
            "{line} {text}"
        );
    }
    Ok(())
}

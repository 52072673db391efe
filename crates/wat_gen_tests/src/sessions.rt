//! Sessions that are made up, against texts and numbers that another program computed from the rules.
use std::test::Fail;
use wat_gen::scripts;
use wat_lex::MAX_TEXT;
use wat_list::item;
use wat_parse::statements;
use wat_schedule::Item;

/// The scripts after the first one of the session of number 7, with one transaction in each.
const SCRIPTS: [&str; 7] = [
    "SET TEMPORARY OPTION ISOLATION_LEVEL = 2; DELETE FROM g WHERE k = 195; SELECT COUNT(*), SUM(k) FROM g WHERE v BETWEEN 32 AND 41; INSERT INTO g VALUES (949, 62); COMMIT;",
    "SET TEMPORARY OPTION ISOLATION_LEVEL = 3; UPDATE g SET v = 51 WHERE k BETWEEN 899 AND 915; INSERT INTO g VALUES (793, 54); DELETE FROM g WHERE k = 653; COMMIT;",
    "SET TEMPORARY OPTION ISOLATION_LEVEL = 0; INSERT INTO g VALUES (40, 45); UPDATE g SET v = 17 WHERE k BETWEEN 632 AND 644; DELETE FROM g WHERE k = 875; COMMIT;",
    "SET TEMPORARY OPTION ISOLATION_LEVEL = 3; UPDATE g SET v = 7 WHERE k BETWEEN 939 AND 948; INSERT INTO g VALUES (752, 45); SELECT COUNT(*), SUM(k) FROM g WHERE v BETWEEN 88 AND 97; COMMIT;",
    "SET TEMPORARY OPTION ISOLATION_LEVEL = 2; DELETE FROM g WHERE k = 780; INSERT INTO g VALUES (704, 4); DELETE FROM g WHERE k = 490; COMMIT;",
    "SET TEMPORARY OPTION ISOLATION_LEVEL = 3; SET TEMPORARY OPTION BLOCKING = OFF; INSERT INTO g VALUES (654, 57); INSERT INTO g VALUES (74, 51); INSERT INTO g VALUES (856, 6); COMMIT;",
    "SET TEMPORARY OPTION ISOLATION_LEVEL = 0; SET TEMPORARY OPTION BLOCKING = OFF; SELECT COUNT(*), SUM(k) FROM g WHERE v BETWEEN 59 AND 68; UPDATE g SET v = 55 WHERE k BETWEEN 363 AND 363; UPDATE g SET v = 52 WHERE k BETWEEN 300 AND 303; COMMIT;",
];

/// The connections of its schedule, after those of the turns that fill the table.
const TURNS: [u16; 32] = [
    3, 2, 7, 7, 4, 1, 6, 7, 6, 3, 7, 1, 8, 1, 1, 2, 8, 3, 4, 8, 4, 6, 2, 6, 3, 1, 7, 4, 5, 6, 8, 1,
];

#[test]
fn a_session_has_the_texts_of_its_number(rt: HostRuntime) -> Result<(), Fail> {
    let (scripts, _) = scripts(rt.alloc(), 7, 1)?;
    assert_eq!(rt; scripts.len(), 8);
    let first = item(&scripts, 0).as_str();
    assert!(rt;
        first.starts_with(
            "CREATE TABLE g (k INTEGER PRIMARY KEY, v INTEGER NOT NULL); CREATE INDEX gv ON g (v); INSERT INTO g VALUES (0, 0); INSERT INTO g VALUES (10, 1); "
        )
    );
    assert!(rt;
        first.ends_with(
            " INSERT INTO g VALUES (990, 99); COMMIT; SET TEMPORARY OPTION ISOLATION_LEVEL = 3; DELETE FROM g WHERE k = 231; UPDATE g SET v = 19 WHERE k BETWEEN 673 AND 678; INSERT INTO g VALUES (764, 39); COMMIT;"
        )
    );
    for (i, want) in SCRIPTS.iter().enumerate() {
        assert_eq!(rt; item(&scripts, i + 1).as_str(), *want);
    }
    Ok(())
}

#[test]
fn a_session_has_the_schedule_of_its_number(rt: HostRuntime) -> Result<(), Fail> {
    let (_, schedule) = scripts(rt.alloc(), 7, 1)?;
    assert_eq!(rt; schedule.len(), 135);
    for i in 0..103 {
        assert_eq!(rt;
            *item(&schedule, i),
            Item {
                conn: 1,
                single: false
            }
        );
    }
    for (i, conn) in TURNS.iter().enumerate() {
        assert_eq!(rt;
            *item(&schedule, 103 + i),
            Item {
                conn: *conn,
                single: false
            }
        );
    }
    Ok(())
}

#[test]
fn sessions_have_so_many_statements(rt: HostRuntime) -> Result<(), Fail> {
    let cases = [(7, 0, 113), (7, 1, 145), (8, 1, 145), (7, 50, 1713)];
    for (number, count, want) in cases {
        let (scripts, _) = scripts(rt.alloc(), number, count)?;
        let mut found = 0usize;
        for script in scripts.as_slice() {
            assert!(rt; script.as_str().len() <= MAX_TEXT);
            found = found.saturating_add(statements(rt.alloc(), script.as_str())?.len());
        }
        assert_eq!(rt; found, want);
    }
    Ok(())
}

// Scripts that one connection ran.
use crate::databases::{EMPTY, is_read_back, log_after};
use std::test::Fail;

#[test]
fn the_statements_of_a_script_are_read_back(rt: HostRuntime) -> Result<(), Fail> {
    let alloc = rt.alloc();
    for (script, text) in [
        ("", ""),
        ("SELECT 1 FROM t; COMMIT; ROLLBACK;", ""),
        // Each type, and columns that take NULL or don't.
        (
            "create table Kinds (a integer primary key, b char(3) not null, c varchar(2000), d int not null)",
            "CREATE TABLE kinds (a INTEGER NOT NULL, b CHAR(3) NOT NULL, c VARCHAR(2000), d INTEGER NOT NULL, PRIMARY KEY (a));\n",
        ),
        // Quotes are doubled, letters that are no ASCII stay, and numbers below zero have their minus.
        (
            "CREATE TABLE n (k INTEGER PRIMARY KEY, s VARCHAR(40)); INSERT INTO n VALUES (-2147483648, ''''); INSERT INTO n VALUES (-1, 'it''s ''so'''); INSERT INTO n (s, k) VALUES ('Zürich – 東京; --', 0); INSERT INTO n (k) VALUES (2147483647); COMMIT;",
            "CREATE TABLE n (k INTEGER NOT NULL, s VARCHAR(40), PRIMARY KEY (k));\nINSERT INTO n VALUES (-2147483648, '''');\nINSERT INTO n VALUES (-1, 'it''s ''so''');\nINSERT INTO n VALUES (0, 'Zürich – 東京; --');\nINSERT INTO n VALUES (2147483647, NULL);\nCOMMIT;\n",
        ),
        // The columns of a key stand in the order of the key, those that are set in the order of the table.
        (
            "CREATE TABLE w (a INTEGER NOT NULL, b VARCHAR(5) NOT NULL, c INTEGER, d INTEGER NOT NULL, e VARCHAR(5), PRIMARY KEY (d, b, a)); INSERT INTO w VALUES (1, 'x', NULL, -2, 'y'); COMMIT; UPDATE w SET e = NULL WHERE a = 1; COMMIT; DELETE FROM w; COMMIT;",
            "CREATE TABLE w (a INTEGER NOT NULL, b VARCHAR(5) NOT NULL, c INTEGER, d INTEGER NOT NULL, e VARCHAR(5), PRIMARY KEY (d, b, a));\nINSERT INTO w VALUES (1, 'x', NULL, -2, 'y');\nCOMMIT;\nUPDATE w SET c = NULL, e = NULL WHERE d = -2 AND b = 'x' AND a = 1;\nCOMMIT;\nDELETE FROM w WHERE d = -2 AND b = 'x' AND a = 1;\nCOMMIT;\n",
        ),
        // What was refused, what was rolled back and what was never committed is not there.
        (
            "CREATE TABLE t (k INTEGER PRIMARY KEY, v INTEGER); INSERT INTO t VALUES (1, 10); INSERT INTO t VALUES (1, 11); INSERT INTO t VALUES (2, 2147483648); UPDATE t SET v = v / 0; CREATE TABLE u (k INTEGER PRIMARY KEY); COMMIT; DELETE FROM t; ROLLBACK; CREATE TABLE t (k INTEGER PRIMARY KEY); DROP TABLE u; COMMIT; UPDATE t SET v = 12 WHERE k = 1",
            "CREATE TABLE t (k INTEGER NOT NULL, v INTEGER, PRIMARY KEY (k));\nINSERT INTO t VALUES (1, 10);\nCOMMIT;\n",
        ),
        // One name for one table after another, each with its own columns, and a change of the schema has no COMMIT.
        (
            "CREATE TABLE t (k INTEGER PRIMARY KEY, v INTEGER NOT NULL); CREATE INDEX by_v ON t (v, k); INSERT INTO t VALUES (1, 10); COMMIT; DROP TABLE t; CREATE TABLE t (s VARCHAR(9) NOT NULL, PRIMARY KEY (s)); CREATE TABLE u (k INTEGER PRIMARY KEY); INSERT INTO t VALUES ('ten'); INSERT INTO u VALUES (10); COMMIT; DROP TABLE u; DELETE FROM t; COMMIT;",
            "CREATE TABLE t (k INTEGER NOT NULL, v INTEGER NOT NULL, PRIMARY KEY (k));\nCREATE INDEX by_v ON t (v, k);\nINSERT INTO t VALUES (1, 10);\nCOMMIT;\nDROP TABLE t;\nCREATE TABLE t (s VARCHAR(9) NOT NULL, PRIMARY KEY (s));\nCREATE TABLE u (k INTEGER NOT NULL, PRIMARY KEY (k));\nINSERT INTO t VALUES ('ten');\nINSERT INTO u VALUES (10);\nCOMMIT;\nDROP TABLE u;\nDELETE FROM t WHERE s = 'ten';\nCOMMIT;\n",
        ),
    ] {
        let log = log_after(alloc, EMPTY, script.as_bytes())?;
        assert!(rt; is_read_back(alloc, &log, text)?, "{script}");
    }
    Ok(())
}

// Statements and their answers.
use crate::calls::{FIRST, FIRST_LOG, FIRST_TEXT, has_log, is_answered, is_logged, over, played};
use std::test::Fail;

/// Two tables, an index, a join in groups, and rows that move in the index.
const ORDERS: &str =
    "CREATE TABLE customer (id INTEGER PRIMARY KEY, name VARCHAR(40) NOT NULL); CREATE TABLE sales_order (id INTEGER PRIMARY KEY, cust INTEGER NOT NULL, amount INTEGER NOT NULL); CREATE INDEX by_cust ON sales_order (cust); INSERT INTO customer VALUES (1, 'Ada'); INSERT INTO customer VALUES (2, 'Bo'); INSERT INTO sales_order VALUES (10, 1, 250); INSERT INTO sales_order VALUES (11, 2, 40); INSERT INTO sales_order VALUES (12, 1, 50); COMMIT; SELECT c.name, COUNT(*), SUM(o.amount) FROM customer c, sales_order o WHERE o.cust = c.id GROUP BY c.name ORDER BY 3 DESC; UPDATE sales_order SET amount = amount / 0 WHERE cust = 3; UPDATE sales_order SET cust = 2 WHERE id = 12; SELECT * FROM sales_order WHERE cust >= 1; COMMIT;";

const ORDERS_TEXT: &str =
    "connection 1\n1: created 1\n2: created 2\n3: created 3\n4: inserted 1\n5: inserted 1\n6: inserted 1\n7: inserted 1\n8: inserted 1\n9: committed 4\n10: rows 2\n('Ada', 2, 300)\n('Bo', 1, 40)\n11: updated 0\n12: updated 1\n13: rows 3\n(10, 1, 250)\n(11, 2, 40)\n(12, 2, 50)\n14: committed 5\ncommits 5\n";

/// A CREATE within a transaction, and then by itself.
const WITHIN: &str =
    "INSERT INTO t VALUES (7, 70); CREATE TABLE u (k INTEGER PRIMARY KEY); COMMIT; CREATE TABLE u (k INTEGER PRIMARY KEY); COMMIT;";

const WITHIN_TEXT: &str =
    "connection 1\n1: inserted 1\n2: open transaction of 1\n3: committed 1\n4: created 2\n5: nothing to commit\ncommits 2\n";

/// Texts with quotes, NULL, a DELETE that is rolled back, and an UPDATE.
const NOTES: &str =
    "CREATE TABLE n (k INTEGER PRIMARY KEY, s VARCHAR(20)); INSERT INTO n VALUES (1, 'it''s'); INSERT INTO n VALUES (-2147483648, NULL); COMMIT; DELETE FROM n; ROLLBACK; UPDATE n SET s = 'x' WHERE k = 1; SELECT * FROM n; COMMIT;";

const NOTES_TEXT: &str =
    "connection 1\n1: created 1\n2: inserted 1\n3: inserted 1\n4: committed 2\n5: deleted 2\n6: rolled back\n7: updated 1\n8: rows 2\n(-2147483648, NULL)\n(1, 'x')\n9: committed 3\ncommits 3\n";

/// What ROLLBACK takes back: a row that was inserted, one that was changed twice, and one that was deleted.
const UNDONE: &str =
    "INSERT INTO t VALUES (7, 70); UPDATE t SET v = 11 WHERE k = 1; UPDATE t SET v = 12 WHERE k = 1; DELETE FROM t WHERE k = 3; SELECT * FROM t; ROLLBACK; ROLLBACK; SELECT * FROM t; COMMIT;";

const UNDONE_TEXT: &str =
    "connection 1\n1: inserted 1\n2: updated 1\n3: updated 1\n4: deleted 1\n5: rows 3\n(1, 12)\n(5, 50)\n(7, 70)\n6: rolled back\n7: rolled back\n8: rows 3\n(1, 10)\n(3, 30)\n(5, 50)\n9: committed 1\ncommits 1\n";

/// Each refusal, and the statements that are not served. Those that are refused open a transaction, whatever they are answered.
const REFUSED: &str =
    "SELECT * FROM u; COMMIT; SELECT x FROM t; SELECT k FROM t, t; SELECT k + 'a' FROM t; CREATE TABLE t (k INTEGER PRIMARY KEY); COMMIT; CREATE TABLE t (k INTEGER PRIMARY KEY); CREATE TABLE w (k INTEGER); CREATE INDEX i ON t (v); CREATE INDEX i ON t (k); CREATE INDEX i ON t (k); UPDATE t SET k = 1; INSERT INTO t VALUES (NULL, 1); INSERT INTO t VALUES (2, 2147483648); INSERT INTO t VALUES (3, 1); DELETE FROM t WHERE 1 / 0 = 1; SAVEPOINT a; ROLLBACK TO SAVEPOINT a; RELEASE SAVEPOINT a; CHECKPOINT; SET TEMPORARY OPTION BLOCKING = OFF; SELECT; COMMIT;";

const REFUSED_TEXT: &str =
    "connection 1\n1: error NoTable u\n2: committed 1\n3: error NoColumn x\n4: error Ambiguous t\n5: error WrongType rule 1\n6: open transaction of 1\n7: committed 2\n8: error TableExists t\n9: error BadTable rule 2\n10: error BadIndex rule 2\n11: created 3\n12: error IndexExists i\n13: error KeyAssigned k\n14: error NullValue k\n15: error OutOfRange v\n16: error Duplicate (3)\n17: error Arithmetic\n18: unsupported\n19: unsupported\n20: unsupported\n21: unsupported\n22: unsupported\n23: error Syntax at 540\n24: committed 4\ncommits 4\n";

const MALFORMED: &str = "commit 1; SELECT FROM t; INSERT INTO t VALUES (1, 2; COMMIT WORK";

const MALFORMED_TEXT: &str =
    "connection 1\n1: error Syntax at 7\n2: error Syntax at 17\n3: error Syntax at 51\n4: nothing to commit\ncommits 0\n";

#[test]
fn statements_are_answered(rt: HostRuntime) -> Result<(), Fail> {
    let empty: &[u8] = &[0];
    let first: &[u8] = &FIRST_LOG;
    for (log, script, text) in [
        (empty, "", "connection 1\ncommits 0\n"),
        (empty, ";", "connection 1\ncommits 0\n"),
        (
            empty,
            "SELECT 'abc",
            "connection 1\n1: error Syntax at 7\ncommits 0\n",
        ),
        (empty, MALFORMED, MALFORMED_TEXT),
        (empty, ORDERS, ORDERS_TEXT),
        (empty, NOTES, NOTES_TEXT),
        (first, WITHIN, WITHIN_TEXT),
        (first, UNDONE, UNDONE_TEXT),
        (first, REFUSED, REFUSED_TEXT),
        // A condition is asked of each row, also where another part of it is false.
        (
            first,
            "SELECT k FROM t WHERE v / 0 = 1 AND k = 9;",
            "connection 1\n1: rows 0\ncommits 0\n",
        ),
        (
            first,
            "SELECT k FROM t WHERE v / 0 = 1 AND k >= 5;",
            "connection 1\n1: error Arithmetic\ncommits 0\n",
        ),
        // An open transaction is dropped where the script ends.
        (
            first,
            "SELECT * FROM t WHERE k = 1; DELETE FROM t",
            "connection 1\n1: rows 1\n(1, 10)\n2: deleted 3\ncommits 0\n",
        ),
    ] {
        let around = over(log, script.as_bytes());
        assert!(rt;
            is_answered(rt.alloc(), "run a.sql", &around, 0, text.as_bytes())?,
            "{script}"
        );
    }
    Ok(())
}

#[test]
fn commits_are_logged(rt: HostRuntime) -> Result<(), Fail> {
    let empty: &[u8] = &[0];
    let first: &[u8] = &FIRST_LOG;
    for (log, script, text, left) in [
        (empty, FIRST, FIRST_TEXT, first),
        // A transaction without changes is not written, nor is one that is rolled back or left open.
        (
            first,
            "SELECT * FROM t WHERE k = 3; COMMIT; DELETE FROM t; ROLLBACK; DELETE FROM t;",
            "connection 1\n1: rows 1\n(3, 30)\n2: committed 1\n3: deleted 3\n4: rolled back\n5: deleted 3\ncommits 1\n",
            first,
        ),
        (
            empty,
            "CREATE TABLE t (k INTEGER)",
            "connection 1\n1: error BadTable rule 2\ncommits 0\n",
            empty,
        ),
    ] {
        let around = over(log, script.as_bytes());
        assert!(rt;
            is_logged(rt.alloc(), "run a.sql", &around, 0, text.as_bytes(), left)?,
            "{script}"
        );
    }
    Ok(())
}

/// Two calls over one database answer and leave what one call of both scripts does, but for the numbers of the commits.
#[test]
fn a_second_script_reads_what_the_first_committed(rt: HostRuntime) -> Result<(), Fail> {
    let alloc = rt.alloc();
    let first = played(alloc, "run a.sql", &[0], FIRST)?;
    assert_eq!(rt; first.status, 0);
    let mut second = first.disk;
    assert!(rt; has_log(alloc, &mut second, &FIRST_LOG)?);
    let around = over(
        &FIRST_LOG,
        b"UPDATE t SET v = v * 2; COMMIT; SELECT v FROM t ORDER BY 1 DESC",
    );
    let text =
        "connection 1\n1: updated 3\n2: committed 1\n3: rows 3\n(100)\n(60)\n(20)\ncommits 1\n";
    assert!(rt; is_answered(alloc, "run a.sql", &around, 0, text.as_bytes())?);
    Ok(())
}

/// So many parentheses round a column.
#[test]
fn parentheses_nest_a_hundred_deep(rt: HostRuntime) -> Result<(), Fail> {
    for (depth, text) in [
        (100, "connection 1\n1: rows 1\n(1)\ncommits 0\n"),
        (101, "connection 1\n1: error Syntax at 122\ncommits 0\n"),
    ] {
        let mut script = String::from_str(rt.alloc(), "SELECT k FROM t WHERE ")?;
        for _i in 0..depth {
            script.push_str("(")?;
        }
        script.push_str("k")?;
        for _i in 0..depth {
            script.push_str(")")?;
        }
        script.push_str(" = 1;")?;
        let around = over(&FIRST_LOG, script.as_bytes());
        assert!(rt;
            is_answered(rt.alloc(), "run a.sql", &around, 0, text.as_bytes())?,
            "{depth}"
        );
    }
    Ok(())
}

#[test]
fn a_script_has_a_longest_length(rt: HostRuntime) -> Result<(), Fail> {
    for (length, status, text) in [
        (16777216, 0, "connection 1\ncommits 0\n"),
        (16777217, 8, "watsql: script 1 is too long\n"),
    ] {
        let script = vec![in rt.alloc(); b' '; length]?;
        let around = over(&[0], &script);
        assert!(rt;
            is_answered(rt.alloc(), "run a.sql", &around, status, text.as_bytes())?,
            "{length}"
        );
    }
    Ok(())
}

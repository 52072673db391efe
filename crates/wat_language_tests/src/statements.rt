//! Statements, by the counts of their parts, and the places where texts go wrong.

use crate::reader::{fault_of, nth};
use std::alloc::{Alloc, Global};
use std::process::Abort;
use std::test::Fail;
use wat_ast::{Element, InsertSource, Query, SelectItems, Statement};

/// A kind of statement, and counts of its parts.
type Shape = (&'static str, [usize; 8]);

/// Texts with their kinds, and the first counts of their parts.
const RIGHT: [(&str, &str, &[usize]); 39] = [
    (
        "CREATE TABLE t (k INTEGER PRIMARY KEY, v INTEGER)",
        "table",
        &[2, 1, 1],
    ),
    (
        "create table t (k int not null, s varchar(20) null, primary key (k, s))",
        "table",
        &[3, 0, 0],
    ),
    (
        "CREATE TABLE t (k CHAR(3) NULL NOT NULL)",
        "table",
        &[1, 0, 0],
    ),
    (
        "CREATE TABLE t (k INT NOT NULL NULL PRIMARY KEY PRIMARY KEY)",
        "table",
        &[1, 1, 1],
    ),
    ("CREATE TABLE t (PRIMARY KEY (k))", "table", &[1, 9, 1]),
    ("CREATE INDEX i ON t (a ASC, b)", "index", &[2]),
    ("DROP TABLE t", "drop", &[]),
    ("INSERT INTO t VALUES (1, 'a', NULL)", "values", &[0, 3]),
    ("INSERT t (a, b) VALUES (-1, 2 + 3)", "values", &[2, 2]),
    ("INSERT INTO t SELECT * FROM u", "answer", &[0, 0, 1]),
    (
        "INSERT INTO t (a) SELECT k FROM u WHERE k = 1",
        "answer",
        &[1, 0, 1, 0, 1],
    ),
    ("UPDATE t SET a = 1", "update", &[1, 0]),
    (
        "UPDATE t SET a = b + 1, b = NULL WHERE a IS NOT NULL",
        "update",
        &[2, 1],
    ),
    ("DELETE FROM t", "delete", &[0]),
    ("DELETE t WHERE k IN (1, 2)", "delete", &[1]),
    ("SELECT * FROM t", "select", &[0, 0, 1, 0, 0, 0, 0, 0]),
    (
        "SELECT DISTINCT a, b.c FROM t x, u AS y, w WHERE a = b.c GROUP BY a, b.c HAVING COUNT(*) > 1 ORDER BY a DESC, 2 ASC, b.c",
        "select",
        &[2, 1, 3, 2, 1, 2, 1, 3],
    ),
    ("SELECT k FROM t AS x", "select", &[1, 0, 1, 1]),
    (
        "SELECT k FROM t x ORDER BY 1",
        "select",
        &[1, 0, 1, 1, 0, 0, 0, 1],
    ),
    (
        "SELECT ((k)) FROM t GROUP BY k",
        "select",
        &[1, 0, 1, 0, 0, 1, 0, 0],
    ),
    ("SELECT/**/k--\nFROM t", "select", &[1]),
    (
        "SELECT COUNT(*), COUNT(k), SUM(k), MIN(k), MAX(k + 1) FROM t",
        "select",
        &[5],
    ),
    ("SELECT -(1 + 2) * 3 / 4 || 'it''s' FROM t", "select", &[1]),
    (
        "SELECT k FROM t WHERE NOT k BETWEEN 1 AND 2 AND k NOT IN (3) OR k NOT BETWEEN 4 AND 5 OR k IS NULL",
        "select",
        &[1, 0, 1, 0, 1],
    ),
    (
        "SELECT k FROM t WHERE k <> 1 AND k != 2 AND k < 3 AND k <= 4 AND k > 5 AND k >= 6",
        "select",
        &[1, 0, 1, 0, 1],
    ),
    ("COMMIT", "commit", &[]),
    ("COMMIT WORK", "commit", &[]),
    ("CHECKPOINT", "checkpoint", &[]),
    ("ROLLBACK", "rollback", &[]),
    ("ROLLBACK WORK", "rollback", &[]),
    ("ROLLBACK TO SAVEPOINT a", "rollback to", &[]),
    ("SAVEPOINT a", "savepoint", &[]),
    ("RELEASE SAVEPOINT a", "release", &[]),
    ("SET TEMPORARY OPTION ISOLATION_LEVEL = 0", "level", &[0]),
    ("SET TEMPORARY OPTION ISOLATION_LEVEL = 03", "level", &[3]),
    ("SET TEMPORARY OPTION BLOCKING = ON", "blocking", &[1]),
    ("SET TEMPORARY OPTION BLOCKING = OFF", "blocking", &[0]),
    ("SET TEMPORARY OPTION BLOCKING = 'on'", "blocking", &[1]),
    ("SET TEMPORARY OPTION BLOCKING = 'Off'", "blocking", &[0]),
];

/// Texts with the places of the first tokens with which they begin no statement.
const WRONG: [(&str, u32); 49] = [
    ("SELECT 'abc", 7),
    ("SELECT", 6),
    ("SELECT ; x", 7),
    ("SELECT k FROM t WHERE ", 22),
    ("SELECT k FROM", 13),
    ("SELECT FROM t", 7),
    ("SELECT *, k FROM t", 8),
    ("SELECT k k FROM t", 9),
    ("SELECT k FROM t AS", 18),
    ("SELECT k FROM select", 14),
    ("SELECT k FROM t u v", 18),
    ("SELECT k FROM t WHERE k = 1 = 2", 28),
    ("SELECT k FROM t WHERE k NOT 1", 28),
    ("SELECT k FROM t WHERE k BETWEEN 1 OR 2", 34),
    ("SELECT k FROM t WHERE k IS 1", 27),
    ("SELECT k FROM t WHERE k IN ()", 28),
    ("SELECT COUNT() FROM t", 13),
    ("SELECT SUM(*) FROM t", 11),
    ("SELECT k FROM t ORDER k", 22),
    ("SELECT k FROM t ORDER BY k + 1", 27),
    ("SELECT k FROM t GROUP BY 1", 25),
    ("SELECT k FROM t HAVING", 22),
    ("SELECT 9223372036854775808 FROM t", 7),
    ("SELECT ké FROM t", 8),
    ("CREATE t", 7),
    ("CREATE TABLE t", 14),
    ("CREATE TABLE t ()", 16),
    ("CREATE TABLE t (k INTEGER NOT)", 29),
    ("CREATE TABLE t (k NUMERIC(3))", 18),
    ("CREATE TABLE t (k CHAR)", 22),
    ("CREATE TABLE t (k INTEGER PRIMARY)", 33),
    ("CREATE TABLE t (k INTEGER REFERENCES u)", 26),
    ("CREATE INDEX i ON t (a DESC)", 23),
    ("DROP INDEX i", 5),
    ("INSERT INTO VALUES (1)", 12),
    ("INSERT INTO t (a) (1)", 18),
    ("INSERT INTO t VALUES (1) , (2)", 25),
    ("UPDATE t SET a = 1 b = 2", 19),
    ("UPDATE t a = 1", 9),
    ("DELETE FROM t k = 1", 14),
    ("COMMIT COMMIT", 7),
    ("COMMIT /* ; */ x -- ;\n; y", 15),
    ("ROLLBACK TO a", 12),
    ("RELEASE a", 8),
    ("SAVEPOINT work", 10),
    ("SET TEMPORARY OPTION ISOLATION_LEVEL = 4", 39),
    ("SET TEMPORARY OPTION BLOCKING = 'maybe'", 32),
    ("SET OPTION BLOCKING = ON", 4),
    ("k", 0),
];

/// Scripts, the number of a statement in them, and where it goes wrong.
const LATER: [(&str, usize, u32); 2] = [
    ("COMMIT; SELECT", 1, 14),
    ("COMMIT; DELETE FROM t; CHECKPOINT x", 2, 34),
];

fn query_shape(what: &'static str, query: &Query) -> Shape {
    let items = match &query.items {
        SelectItems::Star => 0,
        SelectItems::List(items) => items.len(),
    };
    let aliases = query
        .sources
        .as_slice()
        .iter()
        .filter(|source| source.alias.is_some())
        .count();
    let counts = [
        items,
        usize::from(query.distinct),
        query.sources.len(),
        aliases,
        usize::from(query.filter.is_some()),
        query.group.len(),
        usize::from(query.having.is_some()),
        query.order.len(),
    ];
    (what, counts)
}

fn table_shape(elements: &[Element]) -> Shape {
    let (nullable, key) = match elements {
        [
            Element::Column {
                name: _,
                kind: _,
                nullable,
                key,
            },
            ..
        ] => (usize::from(*nullable), usize::from(*key)),
        [Element::Key(names), ..] => (9, names.len()),
        [] => (0, 0),
    };
    ("table", [elements.len(), nullable, key, 0, 0, 0, 0, 0])
}

fn shape(tree: &Statement) -> Shape {
    match tree {
        Statement::CreateTable { name: _, elements } => table_shape(elements.as_slice()),
        Statement::CreateIndex {
            name: _,
            table: _,
            columns,
        } => ("index", [columns.len(), 0, 0, 0, 0, 0, 0, 0]),
        Statement::DropTable { name: _ } => ("drop", [0; 8]),
        Statement::Insert {
            table: _,
            columns,
            source,
        } => {
            let columns = match columns {
                None => 0,
                Some(columns) => columns.len(),
            };
            match source {
                InsertSource::Values(values) => {
                    ("values", [columns, values.len(), 0, 0, 0, 0, 0, 0])
                }
                InsertSource::Answer(query) => query_shape("answer", query),
            }
        }
        Statement::Update {
            table: _,
            sets,
            filter,
        } => (
            "update",
            [sets.len(), usize::from(filter.is_some()), 0, 0, 0, 0, 0, 0],
        ),
        Statement::Delete { table: _, filter } => (
            "delete",
            [usize::from(filter.is_some()), 0, 0, 0, 0, 0, 0, 0],
        ),
        Statement::Select(query) => query_shape("select", query),
        Statement::Commit => ("commit", [0; 8]),
        Statement::Checkpoint => ("checkpoint", [0; 8]),
        Statement::Rollback => ("rollback", [0; 8]),
        Statement::RollbackTo { name: _ } => ("rollback to", [0; 8]),
        Statement::Savepoint { name: _ } => ("savepoint", [0; 8]),
        Statement::Release { name: _ } => ("release", [0; 8]),
        Statement::SetLevel(level) => ("level", [usize::from(*level), 0, 0, 0, 0, 0, 0, 0]),
        Statement::SetBlocking(on) => ("blocking", [usize::from(*on), 0, 0, 0, 0, 0, 0, 0]),
    }
}

fn begins_with(all: &[usize], counts: &[usize]) -> bool {
    all.iter().zip(counts.iter()).all(|(a, b)| *a == *b)
}

fn is_shaped(tree: &Statement, kind: &str, counts: &[usize]) -> bool {
    let (found, all) = shape(tree);
    found == kind && begins_with(&all, counts)
}

/// Whether the statement of that number has this kind and these first counts.
fn has_shape(
    rt: &(impl Abort + Alloc<A = Global>),
    text: &str,
    n: usize,
    kind: &str,
    counts: &[usize],
) -> Result<bool, Fail> {
    match nth(rt, text, n)? {
        Ok(tree) => Ok(is_shaped(&tree, kind, counts)),
        Err(_) => Ok(false),
    }
}

#[test]
fn statements_have_their_parts(rt: HostRuntime) -> Result<(), Fail> {
    for (text, kind, counts) in RIGHT {
        assert!(rt; has_shape(&rt, text, 0, kind, counts)?, "{text}");
    }
    assert!(rt; has_shape(&rt, "x; COMMIT ;", 1, "commit", &[])?);
    Ok(())
}

#[test]
fn texts_go_wrong_at_a_token(rt: HostRuntime) -> Result<(), Fail> {
    for (text, at) in WRONG {
        assert_eq!(rt; fault_of(&rt, text, 0)?, Some(at), "{text}");
    }
    for (text, n, at) in LATER {
        assert_eq!(rt; fault_of(&rt, text, n)?, Some(at), "{text}");
    }
    Ok(())
}

/// A query whose condition is nested that deep.
fn nested(alloc: Global, open: &str, close: &str, levels: usize) -> Result<String, Fail> {
    let mut text = String::from_str(alloc, "SELECT k FROM t WHERE ")?;
    for _level in 0..levels {
        text.push_str(open)?;
    }
    text.push_str("k")?;
    for _level in 0..levels {
        text.push_str(close)?;
    }
    Ok(text)
}

/// Where a condition that is nested that deep goes wrong, if it does.
fn fault_at_depth(
    rt: &(impl Abort + Alloc<A = Global>),
    open: &str,
    close: &str,
    levels: usize,
) -> Result<Option<u32>, Fail> {
    let text = nested(rt.alloc(), open, close, levels)?;
    fault_of(rt, text.as_str(), 0)
}

#[test]
fn a_hundred_levels_and_no_more(rt: HostRuntime) -> Result<(), Fail> {
    for (open, close, at) in [
        ("(", ")", 122),
        ("NOT ", "", 422),
        ("- ", "", 222),
        ("k IN (", ")", 624),
        ("k NOT IN (", ")", 1028),
        ("SUM(", ")", 422),
        ("COUNT(", ")", 622),
    ] {
        assert_eq!(rt; fault_at_depth(&rt, open, close, 100)?, None, "{open}");
        assert_eq!(rt; fault_at_depth(&rt, open, close, 101)?, Some(at), "{open}");
    }
    Ok(())
}

fn long_chain(alloc: Global) -> Result<String, Fail> {
    let mut text = String::from_str(alloc, "SELECT 1")?;
    for _term in 0..100_000 {
        text.push_str("+1")?;
    }
    text.push_str(" FROM t")?;
    Ok(text)
}

#[test]
fn a_long_chain_is_read(rt: HostRuntime) -> Result<(), Fail> {
    let text = long_chain(rt.alloc())?;
    assert!(rt; has_shape(&rt, text.as_str(), 0, "select", &[1])?);
    Ok(())
}

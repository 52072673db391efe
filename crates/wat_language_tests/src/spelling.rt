//! Texts of statements, and what they are read as.

use crate::reader::{fault_of, name, nth};
use crate::trees::long_chain;
use std::alloc::{Alloc, Global};
use std::process::Abort;
use std::test::Fail;
use wat_ast::{Expr, Statement, UnaryOp};
use wat_list::Boxed;
use wat_spell::spell;
use wat_value::Value;

fn spelled(alloc: Global, tree: &Statement) -> Result<String, Fail> {
    let mut out = Vec::new(alloc);
    spell(tree, &mut out)?;
    Ok(String::from_utf8(out)?)
}

/// The statement of the text, spelled; or nothing.
fn respelled(rt: &(impl Abort + Alloc<A = Global>), text: &str) -> Result<String, Fail> {
    match nth(rt, text, 0)? {
        Ok(tree) => spelled(rt.alloc(), &tree),
        Err(_) => Ok(String::new(rt.alloc())),
    }
}

#[test]
fn statements_are_spelled(rt: HostRuntime) -> Result<(), Fail> {
    for (text, spelled) in [
        ("select a+b*2 from t", "SELECT a + b * 2 FROM t"),
        (
            "select 3-(1+2), (3-1)+2, ((a)) from T",
            "SELECT 3 - (1 + 2), 3 - 1 + 2, a FROM t",
        ),
        (
            "select (1+2)*3, -(a+b), - -1, 'it''s ' || null from t",
            "SELECT (1 + 2) * 3, - (a + b), - - 1, 'it''s ' || NULL FROM t",
        ),
        (
            "select * from t where (not a) = 1 and not (a = 1 or b is not null)",
            "SELECT * FROM t WHERE (NOT a) = 1 AND NOT (a = 1 OR b IS NOT NULL)",
        ),
        (
            "select sum(a+1),count( * ) from t as x,u y where x.k!=y.k group by x.k having count(*)>1 order by 1 desc,x.k asc",
            "SELECT SUM(a + 1), COUNT(*) FROM t x, u y WHERE x.k <> y.k GROUP BY x.k HAVING COUNT(*) > 1 ORDER BY 1 DESC, x.k",
        ),
        (
            "select distinct a from t where a between 1+2 and (3 and 4) or b not in (1,(3 or 4))",
            "SELECT DISTINCT a FROM t WHERE a BETWEEN 1 + 2 AND (3 AND 4) OR b NOT IN (1, 3 OR 4)",
        ),
        (
            "create table t(k int primary key null,v varchar(20) not null null,primary key(k))",
            "CREATE TABLE t (k INTEGER PRIMARY KEY, v VARCHAR(20), PRIMARY KEY (k))",
        ),
        (
            "create table t(k integer primary key not null)",
            "CREATE TABLE t (k INTEGER NOT NULL PRIMARY KEY)",
        ),
        ("create index i on t(v asc,k)", "CREATE INDEX i ON t (v, k)"),
        (
            "insert t(k,v) values(1,'a')",
            "INSERT INTO t (k, v) VALUES (1, 'a')",
        ),
        (
            "insert into u select k from t",
            "INSERT INTO u SELECT k FROM t",
        ),
        (
            "update t set v=v+1,w=null where k",
            "UPDATE t SET v = v + 1, w = NULL WHERE k",
        ),
        ("delete t", "DELETE FROM t"),
        ("rollback work", "ROLLBACK"),
        (
            "set temporary option isolation_level = 03",
            "SET TEMPORARY OPTION ISOLATION_LEVEL = 3",
        ),
        ("rollback to savepoint S", "ROLLBACK TO SAVEPOINT s"),
        (
            "set temporary option blocking = 'off'",
            "SET TEMPORARY OPTION BLOCKING = OFF",
        ),
    ] {
        let found = respelled(&rt, text)?;
        assert_eq!(rt; found.as_str(), spelled, "{text}");
    }
    Ok(())
}

/// DELETE with a condition.
fn delete_where(alloc: Global, condition: Expr) -> Result<Statement, Fail> {
    let table = name(alloc, "t")?;
    let filter = Some(condition);
    Ok(Statement::Delete { table, filter })
}

fn spelled_where(alloc: Global, condition: Expr) -> Result<String, Fail> {
    let tree = delete_where(alloc, condition)?;
    spelled(alloc, &tree)
}

fn minus(alloc: Global, number: i64) -> Result<Expr, Fail> {
    let op = UnaryOp::Minus;
    let arg = Boxed::new(alloc, Expr::Literal(Value::Int(number)))?;
    Ok(Expr::Unary { op, arg })
}

#[test]
fn a_number_below_zero_is_one_token(rt: HostRuntime) -> Result<(), Fail> {
    for (number, text, again) in [
        (5, "DELETE FROM t WHERE 5", "DELETE FROM t WHERE 5"),
        (-1, "DELETE FROM t WHERE -1", "DELETE FROM t WHERE - 1"),
        (
            -2_147_483_648,
            "DELETE FROM t WHERE -2147483648",
            "DELETE FROM t WHERE - 2147483648",
        ),
        (i64::MIN, "DELETE FROM t WHERE -9223372036854775808", ""),
    ] {
        let found = spelled_where(rt.alloc(), Expr::Literal(Value::Int(number)))?;
        assert_eq!(rt; found.as_str(), text);
        let read = respelled(&rt, text)?;
        assert_eq!(rt; read.as_str(), again);
    }
    Ok(())
}

#[test]
fn a_minus_before_a_number_below_zero_stands_apart(rt: HostRuntime) -> Result<(), Fail> {
    let condition = minus(rt.alloc(), -1)?;
    let found = spelled_where(rt.alloc(), condition)?;
    assert_eq!(rt; found.as_str(), "DELETE FROM t WHERE - -1");
    let read = respelled(&rt, "DELETE FROM t WHERE - -1")?;
    assert_eq!(rt; read.as_str(), "DELETE FROM t WHERE - - 1");
    Ok(())
}

#[test]
fn the_least_number_is_no_token(rt: HostRuntime) -> Result<(), Fail> {
    let text = "DELETE FROM t WHERE -9223372036854775808";
    assert_eq!(rt; fault_of(&rt, text, 0)?, Some(21));
    Ok(())
}

#[test]
fn a_long_chain_is_spelled(rt: HostRuntime) -> Result<(), Fail> {
    let chain = long_chain(rt.alloc())?;
    let found = spelled_where(rt.alloc(), chain)?;
    assert_eq!(rt; found.as_str().len(), 800_017);
    Ok(())
}

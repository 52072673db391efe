//! Expressions.

use std::alloc::{Alloc, Global};
use std::process::Abort;
use std::test::Fail;
use wat_ast::{BinaryOp, Expr};
use wat_cursor::{Cursor, Fault};
use wat_expressions::{column, expression, expressions};
use wat_lex::{MAX_TEXT, tokens};

/// The outermost operator, if there is one of two operands; or the fault.
type Root = Result<Option<BinaryOp>, Fault>;

fn operator_of(expr: &Expr) -> Option<BinaryOp> {
    match expr {
        Expr::Binary { op, .. } => Some(*op),
        _ => None,
    }
}

/// The root of the expression at the front of a text, and how many tokens are left.
fn read(rt: &(impl Abort + Alloc<A = Global>), text: &str) -> Result<(Root, usize), Fail> {
    assert!(rt; text.len() <= MAX_TEXT);
    let found = tokens(rt.alloc(), text)?;
    let mut cursor = Cursor::new(text, found.as_slice());
    let root = match expression(rt.alloc(), &mut cursor) {
        Ok(expr) => Ok(operator_of(&expr)),
        Err(fault) => Err(fault),
    };
    Ok((root, cursor.len()))
}

#[test]
fn expressions_by_their_outermost_operator(rt: HostRuntime) -> Result<(), Fail> {
    use BinaryOp::{Add, And, Concat, Equal, Greater, Multiply, Or, Subtract};
    let cases: [(&str, Root, usize); 24] = [
        ("1 + 2 * 3", Ok(Some(Add)), 0),
        ("(1 + 2) * 3", Ok(Some(Multiply)), 0),
        ("1 - 2 + 3 - 4", Ok(Some(Subtract)), 0),
        ("'a' || t.b = c", Ok(Some(Equal)), 0),
        ("a || b", Ok(Some(Concat)), 0),
        ("a OR b AND NOT c = 1", Ok(Some(Or)), 0),
        ("NOT a = 1", Ok(None), 0),
        ("- a", Ok(None), 0),
        ("-a + 1", Ok(Some(Add)), 0),
        ("a BETWEEN 1 AND 2 AND b", Ok(Some(And)), 0),
        ("a NOT BETWEEN 1 AND 2", Ok(None), 0),
        ("a IS NOT NULL OR b IS NULL", Ok(Some(Or)), 0),
        ("a NOT IN (1, NULL, b + 1)", Ok(None), 0),
        ("COUNT(*) > 1", Ok(Some(Greater)), 0),
        ("COUNT(a) + SUM(b) + MIN(c) + MAX(d)", Ok(Some(Add)), 0),
        // What does not go on with the expression is left.
        ("a = b = c", Ok(Some(Equal)), 2),
        ("a b", Ok(None), 1),
        ("a IS NULL IS NULL", Ok(None), 2),
        // Faults, at the first token that does not fit.
        ("", Err(Fault::Syntax), 0),
        ("1 +", Err(Fault::Syntax), 0),
        ("(a, b)", Err(Fault::Syntax), 3),
        ("a IN ()", Err(Fault::Syntax), 1),
        ("a NOT NULL", Err(Fault::Syntax), 1),
        ("SUM(*)", Err(Fault::Syntax), 2),
    ];
    for (text, root, left) in cases {
        let (found, rest) = read(&rt, text)?;
        assert_eq!(rt; found, root, "{text}");
        assert_eq!(rt; rest, left, "{text}");
    }
    Ok(())
}

fn in_parentheses(alloc: Global, depth: usize) -> Result<String, Fail> {
    let mut text = String::new(alloc);
    for _level in 0..depth {
        text.push('(')?;
    }
    text.push('1')?;
    for _level in 0..depth {
        text.push(')')?;
    }
    Ok(text)
}

#[test]
fn a_hundred_levels_are_read(rt: HostRuntime) -> Result<(), Fail> {
    let deepest = in_parentheses(rt.alloc(), 100)?;
    let (root, rest) = read(&rt, deepest.as_str())?;
    assert_eq!(rt; root, Ok(None));
    assert_eq!(rt; rest, 0);
    let deeper = in_parentheses(rt.alloc(), 101)?;
    let (root, rest) = read(&rt, deeper.as_str())?;
    assert_eq!(rt; root, Err(Fault::Syntax));
    assert_eq!(rt; rest, 103);
    Ok(())
}

#[test]
fn lists_and_columns_are_read(rt: HostRuntime) -> Result<(), Fail> {
    let text = "a, b.c, 1 + 1)";
    assert!(rt; text.len() <= MAX_TEXT);
    let found = tokens(rt.alloc(), text)?;
    let mut cursor = Cursor::new(text, found.as_slice());
    let first = column(rt.alloc(), &mut cursor).map_err(|_| "no column")?;
    assert!(rt; matches!(&first, Expr::Named { table: None, .. }));
    cursor.advance();
    let list = expressions(rt.alloc(), &mut cursor).map_err(|_| "no list")?;
    assert_eq!(rt; list.len(), 2);
    assert_eq!(rt; cursor.len(), 1);
    Ok(())
}

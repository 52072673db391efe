//! Copies of trees.

use crate::reader::name;
use std::alloc::{AllocError, Global};
use std::test::Fail;
use wat_ast::{BinaryOp, Element, Expr, TypeName};
use wat_list::{Boxed, Copied};
use wat_value::Value;

const TERMS: usize = 200_000;

fn number(n: i64) -> Expr {
    Expr::Literal(Value::Int(n))
}

/// 1 + 1 + .. + 1
pub fn long_chain(alloc: Global) -> Result<Expr, AllocError> {
    let mut chain = number(1);
    for _turn in 1..TERMS {
        let left = Boxed::new(alloc, chain)?;
        let right = Boxed::new(alloc, number(1))?;
        let op = BinaryOp::Add;
        chain = Expr::Binary { op, left, right };
    }
    Ok(chain)
}

fn operators_of(chain: &Expr) -> u64 {
    let mut count = 0_u64;
    let mut rest = chain;
    while let Expr::Binary { left, .. } = rest {
        count = count.saturating_add(1);
        rest = left.get();
    }
    count
}

#[test]
fn a_long_chain_is_copied_and_let_go(rt: HostRuntime) -> Result<(), Fail> {
    let chain = long_chain(rt.alloc())?;
    let copy = chain.copy(rt.alloc())?;
    drop(chain);
    assert_eq!(rt; operators_of(&copy), 199_999);
    Ok(())
}

#[test]
fn a_column_is_copied_with_its_rules(rt: HostRuntime) -> Result<(), Fail> {
    let name = name(rt.alloc(), "k")?;
    let element = Element::Column {
        name,
        kind: TypeName::Char(7),
        nullable: false,
        key: true,
    };
    let copy = element.copy(rt.alloc())?;
    match &copy {
        Element::Column {
            name,
            kind: TypeName::Char(length),
            nullable: false,
            key: true,
        } => {
            assert_eq!(rt; name.as_str(), "k");
            assert_eq!(rt; *length, 7);
        }
        _ => panic!(rt; "another element"),
    }
    Ok(())
}

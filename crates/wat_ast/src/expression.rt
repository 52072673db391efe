use crate::Name;
use wat_list::{Boxed, Items};
use wat_value::Value;

#[derive(Clone, Copy, Debug, PartialEq, Eq)]
pub enum UnaryOp {
    Not,
    Minus,
}

#[derive(Clone, Copy, Debug, PartialEq, Eq)]
pub enum BinaryOp {
    Or,
    And,
    Equal,
    Unequal,
    Less,
    AtMost,
    Greater,
    AtLeast,
    Add,
    Subtract,
    Concat,
    Multiply,
    Divide,
}

#[derive(Clone, Copy, Debug, PartialEq, Eq)]
pub enum AggregateKind {
    Count,
    Sum,
    Min,
    Max,
}

pub type Exprs = Items<Expr>;

/// An expression. A chain of operations is grouped to the left, and may be as long as a text allows.
pub enum Expr {
    Literal(Value),
    /// A column as it is written, after its table's name or alias or without one.
    Named {
        table: Option<Name>,
        name: Name,
    },
    /// A column that was found: the column of that number of the source of that number, both counted from 0.
    Placed {
        source: u32,
        column: u8,
    },
    Unary {
        op: UnaryOp,
        arg: Boxed<Expr>,
    },
    Binary {
        op: BinaryOp,
        left: Boxed<Expr>,
        right: Boxed<Expr>,
    },
    IsNull {
        arg: Boxed<Expr>,
        negated: bool,
    },
    Between {
        arg: Boxed<Expr>,
        low: Boxed<Expr>,
        high: Boxed<Expr>,
        negated: bool,
    },
    InList {
        arg: Boxed<Expr>,
        items: Exprs,
        negated: bool,
    },
    /// COUNT(*) is `Count` with no argument.
    Aggregate {
        kind: AggregateKind,
        arg: Option<Boxed<Expr>>,
    },
}

// A loop down the left operands, so that a long chain does not run out of stack. The calls of `drop` are written out,
// since the check covers no list that is let go by itself in a type's own `drop`.
impl Drop for Expr {
    fn drop(mut self) {
        loop {
            match self {
                Expr::Literal(_) => return,
                Expr::Named { table: _, name: _ } => return,
                Expr::Placed {
                    source: _,
                    column: _,
                } => return,
                Expr::Unary { op: _, arg } => self = arg.into_inner(),
                Expr::Binary { op: _, left, right } => {
                    drop(right.into_inner());
                    self = left.into_inner();
                }
                Expr::IsNull { arg, negated: _ } => self = arg.into_inner(),
                Expr::Between {
                    arg,
                    low,
                    high,
                    negated: _,
                } => {
                    drop(low.into_inner());
                    drop(high.into_inner());
                    self = arg.into_inner();
                }
                Expr::InList {
                    arg,
                    items,
                    negated: _,
                } => {
                    drop(items);
                    self = arg.into_inner();
                }
                Expr::Aggregate { kind: _, arg: None } => return,
                Expr::Aggregate {
                    kind: _,
                    arg: Some(arg),
                } => self = arg.into_inner(),
            }
        }
    }
}

ghost use Rattle.std.specs.Prelude.{◌≡◌, Some};
ghost use Rattle.wat_interval.specs.Ends.{edge_at, included_at, joined_at, tighter_at, tightest_at};

use crate::test::Test;
use std::cmp::Ordering;
use std::marker::Model;
use wat_ast::BinaryOp;
use wat_value::Value;

/// An end of an interval.
#[derive(Clone, Copy)]
pub(crate) enum End {
    Lower,
    Upper,
}

/// An end of a range of values, which it holds or not, in the test that it comes from.
#[derive(Drop)]
pub(crate) struct LentEdge<'a> {
    pub(crate) value: &'a Value,
    pub(crate) included: bool,
}

impl<'a> Model for LentEdge<'a> {
    ghost use Rattle.wat_interval.specs.Intervals.{Edge};

    ghost Value = { Edge };

    ghost view = { λ e. record { value = e.value.now; included = e.included } };
}

// Whether the operator bounds a column at that end, and then whether its value is included.
fn included(end: End, op: BinaryOp) -> Option<bool>
    ensures { result ≡ included_at end op }
{
    match end {
        End::Lower => match op {
            BinaryOp::Equal | BinaryOp::AtLeast => Some(true),
            BinaryOp::Greater => Some(false),
            _ => None,
        },
        End::Upper => match op {
            BinaryOp::Equal | BinaryOp::AtMost => Some(true),
            BinaryOp::Less => Some(false),
            _ => None,
        },
    }
}

fn edge(test: &Test, end: End) -> Option<LentEdge<'_>>
    ensures { result ≡ edge_at end test.now }
{
    let included = included(end, test.op)?;
    Some(LentEdge {
        value: &test.value,
        included,
    })
}

// Of two lower edges the greater is the tighter one, and of two upper edges the lesser. At equal value
// it is the exclusive one.
fn tighter<'a>(end: End, a: LentEdge<'a>, b: LentEdge<'a>) -> LentEdge<'a>
    ensures { result ≡ tighter_at end a.entry b.entry }
{
    let order = match end {
        End::Lower => a.value.compare(b.value),
        End::Upper => b.value.compare(a.value),
    };
    match order {
        Ordering::Less => b,
        Ordering::Greater => a,
        Ordering::Equal => LentEdge {
            value: a.value,
            included: a.included && b.included,
        },
    }
}

fn joined<'a>(
    end: End,
    found: Option<LentEdge<'a>>,
    edge: Option<LentEdge<'a>>,
) -> Option<LentEdge<'a>>
    ensures { result ≡ joined_at end found.entry edge.entry }
{
    match (found, edge) {
        (found, None) => found,
        (None, Some(edge)) => Some(edge),
        (Some(found), Some(edge)) => Some(tighter(end, found, edge)),
    }
}

/// The tightest of the edges at that end that the tests of one column give.
pub(crate) fn tightest(tests: &[Test], end: End) -> Option<LentEdge<'_>>
    ensures { result ≡ tightest_at end tests.now }
{
    let mut found = None;
    for test in tests {
        found = joined(end, found, edge(test, end));
    }
    found
}

ghost use Rattle.std.specs.Prelude.{◌≡◌, true, false, Some, None, map};
ghost use Rattle.std.specs.List.{fold, list_all};
ghost use Rattle.wat_ast.specs.declared.expression.Expr.TheOpen.{Expr-F};
ghost use Rattle.wat_types.specs.Types.{is_integer, is_text, is_condition, kind_type, value_type, lesser, smallest, breaks, are_comparable, operator_rule, operator_type, unary_type, aggregate_type, any_aggregated, typing_from};

use wat_ast::{AggregateKind, BinaryOp, UnaryOp};
use wat_value::{Kind, Value};

/// The type of an expression. That of NULL goes with integers and with texts.
#[derive(Clone, Copy)]
pub enum ExprType {
    Integer,
    Text,
    Condition,
    Null,
}

/// What is known of an expression: its type, whether an aggregate stands in it, and the smallest rule that is broken in it.
#[derive(Clone, Copy)]
pub struct Typing {
    pub kind: ExprType,
    pub aggregated: bool,
    pub broken: Option<u8>,
}

impl ExprType {
    pub fn is_integer(self) -> bool
        ensures { result ≡ is_integer self }
    {
        matches!(self, ExprType::Integer | ExprType::Null)
    }

    pub fn is_text(self) -> bool
        ensures { result ≡ is_text self }
    {
        matches!(self, ExprType::Text | ExprType::Null)
    }

    pub fn is_condition(self) -> bool
        ensures { result ≡ is_condition self }
    {
        matches!(self, ExprType::Condition)
    }

    /// The type of the columns of a kind.
    pub fn of(kind: Kind) -> ExprType
        ensures { result ≡ kind_type kind }
    {
        match kind {
            Kind::Integer => ExprType::Integer,
            Kind::Char(_) | Kind::Varchar(_) => ExprType::Text,
        }
    }

    /// The type of a literal.
    pub fn of_value(value: &Value) -> ExprType
        ensures { result ≡ value_type value.now }
    {
        match value {
            Value::Null => ExprType::Null,
            Value::Int(_) => ExprType::Integer,
            Value::Text(_) => ExprType::Text,
        }
    }
}

/// Of two rules that may be broken, the smaller one that is.
pub fn lesser(one: Option<u8>, other: Option<u8>) -> Option<u8>
    ensures { result ≡ lesser one other }
{
    match one {
        None => other,
        Some(m) => match other {
            None => Some(m),
            Some(n) => Some(m.min(n)),
        },
    }
}

/// The smallest of the rules that are broken, if one is.
pub fn smallest(rules: &[Option<u8>]) -> Option<u8>
    ensures { result ≡ smallest rules.now }
{
    let mut least = None;
    for rule in rules {
        least = lesser(least, *rule);
    }
    least
}

/// The rule, where it is broken.
pub fn breaks(rule: u8, broken: bool) -> Option<u8>
    ensures { result ≡ breaks rule broken }
{
    if broken { Some(rule) } else { None }
}

/// Whether an aggregate stands in one of them.
pub fn any_aggregated(typings: &[Typing]) -> bool
    ensures { result ≡ any_aggregated typings.now }
{
    typings.iter().any(|typing| typing.aggregated)
}

fn are_comparable(a: Typing, b: Typing) -> bool
    ensures { result ≡ are_comparable a b }
{
    (a.kind.is_integer() && b.kind.is_integer()) || (a.kind.is_text() && b.kind.is_text())
}

#[tactic(auto, unfolding(crate::specs::Types::operator_rule))]
fn operator_rule(op: BinaryOp, a: Typing, b: Typing) -> Option<u8>
    ensures { result ≡ operator_rule op a b }
{
    match op {
        BinaryOp::Or | BinaryOp::And => breaks(
            4,
            !(a.kind.is_condition() && b.kind.is_condition()),
        ),
        BinaryOp::Equal
        | BinaryOp::Unequal
        | BinaryOp::Less
        | BinaryOp::AtMost
        | BinaryOp::Greater
        | BinaryOp::AtLeast => breaks(3, !are_comparable(a, b)),
        BinaryOp::Add | BinaryOp::Subtract | BinaryOp::Multiply | BinaryOp::Divide => {
            breaks(1, !(a.kind.is_integer() && b.kind.is_integer()))
        }
        BinaryOp::Concat => breaks(2, !(a.kind.is_text() && b.kind.is_text())),
    }
}

#[tactic(auto, unfolding(crate::specs::Types::operator_type))]
fn operator_type(op: BinaryOp) -> ExprType
    ensures { result ≡ operator_type op }
{
    match op {
        BinaryOp::Add | BinaryOp::Subtract | BinaryOp::Multiply | BinaryOp::Divide =>
            ExprType::Integer,
        BinaryOp::Concat => ExprType::Text,
        _ => ExprType::Condition,
    }
}

fn all_comparable(a: Typing, items: &[Typing]) -> bool
    ensures { result ≡ list_all (are_comparable a) items.now }
{
    items.iter().all(|item| are_comparable(a, *item))
}

fn broken_among(first: Option<u8>, items: &[Typing]) -> Option<u8>
    ensures { result ≡ fold lesser first (map (λ item. item.broken) items.now) }
{
    let mut least = first;
    for item in items {
        least = lesser(least, item.broken);
    }
    least
}

impl Typing {
    /// That of a literal or a column of this type.
    pub fn plain(kind: ExprType) -> Typing
        ensures { result ≡ record { kind = kind; aggregated = false; broken = None } }
    {
        Typing {
            kind,
            aggregated: false,
            broken: None,
        }
    }

    /// That of an operator on one operand.
    pub fn unary(op: UnaryOp, a: Typing) -> Typing
        ensures { result ≡ typing_from (unary_type op) (Expr-F.Unary op a) }
    {
        let (kind, rule) = match op {
            UnaryOp::Not => (ExprType::Condition, breaks(4, !a.kind.is_condition())),
            UnaryOp::Minus => (ExprType::Integer, breaks(1, !a.kind.is_integer())),
        };
        Typing {
            kind,
            aggregated: a.aggregated,
            broken: lesser(a.broken, rule),
        }
    }

    /// That of an operator on two operands.
    pub fn binary(op: BinaryOp, a: Typing, b: Typing) -> Typing
        ensures { result ≡ typing_from (operator_type op) (Expr-F.Binary op a b) }
    {
        Typing {
            kind: operator_type(op),
            aggregated: a.aggregated || b.aggregated,
            broken: lesser(lesser(a.broken, b.broken), operator_rule(op, a, b)),
        }
    }

    /// That of IS NULL.
    pub fn null_test(a: Typing) -> Typing
        ensures { result ≡ typing_from ExprType.Condition (Expr-F.IsNull a false) }
    {
        Typing {
            kind: ExprType::Condition,
            aggregated: a.aggregated,
            broken: lesser(a.broken, breaks(5, a.kind.is_condition())),
        }
    }

    /// That of BETWEEN.
    pub fn between(a: Typing, low: Typing, high: Typing) -> Typing
        ensures { result ≡ typing_from ExprType.Condition (Expr-F.Between a low high false) }
    {
        let rule = breaks(3, !(are_comparable(a, low) && are_comparable(a, high)));
        Typing {
            kind: ExprType::Condition,
            aggregated: a.aggregated || low.aggregated || high.aggregated,
            broken: lesser(lesser(lesser(a.broken, low.broken), high.broken), rule),
        }
    }

    /// That of IN.
    pub fn in_list(a: Typing, items: &[Typing]) -> Typing
        ensures { result ≡ typing_from ExprType.Condition (Expr-F.InList a items.now false) }
    {
        let rule = breaks(3, !all_comparable(a, items));
        Typing {
            kind: ExprType::Condition,
            aggregated: a.aggregated || any_aggregated(items),
            broken: lesser(broken_among(a.broken, items), rule),
        }
    }

    /// That of COUNT(*).
    pub fn count_all() -> Typing
        ensures { result ≡ record { kind = ExprType.Integer; aggregated = true; broken = None } }
    {
        Typing {
            kind: ExprType::Integer,
            aggregated: true,
            broken: None,
        }
    }

    /// That of an aggregate of an argument.
    pub fn aggregate(kind: AggregateKind, a: Typing) -> Typing
        ensures { result ≡ typing_from (aggregate_type kind a) (Expr-F.Aggregate kind (Some a)) }
    {
        let is_sum = matches!(kind, AggregateKind::Sum);
        let rule = breaks(
            6,
            a.aggregated || a.kind.is_condition() || (is_sum && !a.kind.is_integer()),
        );
        let kind = match kind {
            AggregateKind::Count | AggregateKind::Sum => ExprType::Integer,
            AggregateKind::Min | AggregateKind::Max => a.kind,
        };
        Typing {
            kind,
            aggregated: true,
            broken: lesser(a.broken, rule),
        }
    }
}

ghost use Rattle.std.specs.Prelude.{◌≡◌};
ghost use Rattle.wat_interval.specs.Tests.{fixes, is_equality};

use wat_ast::BinaryOp;
use wat_list::Items;
use wat_value::Value;

/// What is to hold between a column, which stands on the left, and a value.
#[derive(Drop)]
pub struct Test {
    pub op: BinaryOp,
    pub value: Value,
}

/// The tests on one column.
pub type Tests = Items<Test>;

fn is_equality(op: BinaryOp) -> bool
    ensures { result ≡ is_equality op }
{
    matches!(op, BinaryOp::Equal)
}

/// Whether one of the tests is of equality.
pub(crate) fn fixes(tests: &Tests) -> bool
    ensures { result ≡ fixes tests.now }
{
    tests.as_slice().iter().any(|test| is_equality(test.op))
}

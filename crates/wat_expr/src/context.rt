ghost use Rattle.std.specs.Prelude.{◌≡◌};
ghost use Rattle.wat_expr.specs.Evaluation.{over, over_group};
ghost use Rattle.wat_walk.specs.Lent.{lent};
ghost use Rattle.wat_expr.specs.Private.{over_context};

use wat_value::Combination;

/// What an expression is taken over: a combination, and the group that its aggregates are taken over if there is one.
#[derive(Drop)]
pub(crate) struct Context<'a> {
    pub(crate) rows: &'a Combination,
    pub(crate) is_grouped: bool,
    pub(crate) group: &'a [&'a Combination],
}

impl<'a> Context<'a> {
    pub(crate) fn alone(rows: &'a Combination) -> Context<'a>
        ensures { over_context result ≡ over rows.now }
    {
        Context {
            rows,
            is_grouped: false,
            group: &[],
        }
    }

    pub(crate) fn grouped(rows: &'a Combination, group: &'a [&'a Combination]) -> Context<'a>
        ensures { over_context result ≡ over_group rows.now (lent group.now) }
    {
        Context {
            rows,
            is_grouped: true,
            group,
        }
    }
}

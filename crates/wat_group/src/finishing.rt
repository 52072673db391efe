ghost use Rattle.std.specs.Prelude.{◌≡◌, [], List, map, IfOk, IsPermutation};
ghost use Rattle.std.specs.List.{IsDistinct};
ghost use Rattle.std.specs.Option.{option_map};
ghost use Rattle.wat_expr.specs.Evaluation.{Combination};
ghost use Rattle.wat_value.specs.Order.{key_eq};
ghost use Rattle.wat_group.specs.Query.{unless, finish, fails, lines, keys_at};
ghost use Rattle.wat_walk.specs.Lent.{lent};

use crate::answer::Finished;
use crate::distinct::first_of_each;
use crate::grouped::Grouped;
use crate::grouping::groups;
use crate::judging::{group_lines, plain_lines};
use crate::keyed::in_key_order;
use crate::line::Line;
use crate::ordering::rows_in_order;
use std::alloc::Global;
use wat_ast::Query;
use wat_list::{Items, NoMemory};
use wat_value::{Combination, Combinations, TableDefs};

// The lines of a query before ORDER BY, or None where one fails.
fn lines<'a>(
    alloc: Global,
    query: &Query,
    rows: &[&'a Combination],
    nothing: &'a Combination,
) -> Result<Option<Vec<Line>>, NoMemory>
    requires { nothing.now ≡ [] }
    ensures { IfOk result (λ found. option_map (λ l. l.items) found ≡ unless (fails query.now (lent rows.now)) (lines query.now (lent rows.now))) }
{
    let grouped = Grouped::of(alloc, query)?;
    if !grouped.is_grouped {
        return plain_lines(alloc, query, rows);
    }
    match groups(alloc, query, grouped.arguments.as_slice(), rows, nothing)? {
        Some(groups) => group_lines(alloc, query, groups.as_slice()),
        None => Ok(None),
    }
}

/// The answer of a query over the combinations that passed WHERE, in the order in which they were met.
///
/// Each combination has a row, or nothing, for each source in the order as written, and `defs` are the definitions of these
/// sources. The answer is `Arithmetic` exactly where an outcome that the query needs is an error, and rows otherwise.
pub fn finish(
    alloc: Global,
    query: &Query,
    defs: &TableDefs,
    rows: &Combinations,
) -> Result<Finished, NoMemory>
    ensures answer { IfOk result (λ f. f ≡ finish query.now defs.now rows.now) }

    // Where no two combinations have the same primary keys, their order makes no difference.
    ensures any_order { (met : List Combination) → IsPermutation rows.now met → IsDistinct key_eq (map (keys_at defs.now) rows.now) → IfOk result (λ f. f ≡ finish query.now defs.now met) }
{
    let rows = in_key_order(alloc, defs, rows)?;
    let nothing = Items::new(alloc);
    let Some(lines) = lines(alloc, query, rows.as_slice(), &nothing)? else {
        return Ok(Finished::Arithmetic);
    };
    let rows = rows_in_order(alloc, lines)?;
    if query.distinct {
        let kept = first_of_each(alloc, &rows)?;
        Ok(Finished::Rows(kept))
    } else {
        Ok(Finished::Rows(rows))
    }
}

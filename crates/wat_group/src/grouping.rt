ghost use Rattle.std.specs.Prelude.{◌≡◌, [], ◌∷◌, map, IfOk};
ghost use Rattle.std.specs.List.{prefix_len, list_any};
ghost use Rattle.std.specs.Option.{option_map};
ghost use Rattle.sqlite_trees.specs.Tree.{IsAscending};
ghost use Rattle.wat_walk.specs.Lent.{lent};
ghost use Rattle.wat_expr.specs.Evaluation.{over_group, outcome_of};
ghost use Rattle.wat_value.specs.Order.{key_eq};
ghost use Rattle.wat_group.specs.Query.{unless, arguments_of, fails_before_groups, group_values, has_error, over_all, groups_at};
ghost use Rattle.wat_group.specs.Private.{over_of, keyed_as, rows_in, under, IsAtMost, classes};

use crate::keyed::{Keyed, sort_by_keys};
use crate::making::{outcomes, row_of};
use crate::taken::Taken;
use std::alloc::Global;
use wat_ast::{Expr, Query};
use wat_list::NoMemory;
use wat_value::{Combination, Row, compare_rows};

// How many entries from the front on have these values.
fn run_length(sorted: &[Keyed], key: &Row) -> usize
    ensures { result ≡ prefix_len (λ entry. key_eq key.now entry.key) sorted.now }
{
    for (length, entry) in sorted.iter().enumerate() {
        if compare_rows(key.as_slice(), entry.key.as_slice()).is_ne() {
            return length;
        }
    }
    sorted.len()
}

fn group_of<'a>(
    alloc: Global,
    rows: &'a Combination,
    run: &[Keyed<'a>],
) -> Result<Taken<'a>, NoMemory>
    ensures { IfOk result (λ group. over_of group ≡ over_group rows.now (rows_in run.now)) }
{
    let mut members = Vec::new(alloc);
    for entry in run {
        members.push(entry.rows)?;
    }
    Ok(Taken {
        rows,
        group: Some(members),
    })
}

// A group for each run of equal values.
fn cut<'a>(alloc: Global, sorted: &[Keyed<'a>]) -> Result<Vec<Taken<'a>>, NoMemory>
    requires { IsAscending IsAtMost sorted.now }
    ensures { IfOk result (λ groups. map over_of groups.items ≡ map over_all (map rows_in (classes sorted.now))) }
{
    let mut groups = Vec::new(alloc);
    let mut start = 0;
    while start < sorted.len() {
        let first = &sorted[start];
        let rest = &sorted[start..];
        let length = run_length(rest, &first.key);
        groups.push(group_of(alloc, first.rows, &rest[..length])?)?;
        start += length;
    }
    Ok(groups)
}

// The GROUP BY values of a combination, or None where one of them or an aggregate's argument is an error.
fn group_key(
    alloc: Global,
    query: &Query,
    arguments: &[&Expr],
    rows: &Combination,
) -> Result<Option<Row>, NoMemory>
    requires { lent arguments.now ≡ arguments_of query.now }
    ensures { IfOk result (λ key. key ≡ unless (fails_before_groups query.now rows.now) (group_values query.now rows.now)) }
{
    let at = Taken { rows, group: None };
    if has_error(alloc, arguments, &at)? {
        return Ok(None);
    }
    let values = outcomes(alloc, query.group.as_slice(), &at)?;
    row_of(alloc, values)
}

// Whether one of the expressions is an error there.
fn has_error(alloc: Global, exprs: &[&Expr], at: &Taken) -> Result<bool, NoMemory>
    ensures { IfOk result (λ found. found ≡ has_error (map (λ e. outcome_of e (over_of at.now)) (lent exprs.now))) }
{
    for expr in exprs {
        if at.outcome(alloc, expr)?.is_error() {
            return Ok(true);
        }
    }
    Ok(false)
}

// The combinations under their GROUP BY values, or None where one fails.
fn under_group_keys<'a>(
    alloc: Global,
    query: &Query,
    arguments: &[&Expr],
    rows: &[&'a Combination],
) -> Result<Option<Vec<Keyed<'a>>>, NoMemory>
    requires { lent arguments.now ≡ arguments_of query.now }
    ensures { IfOk result (λ keyed. option_map (λ k. keyed_as k.items) keyed ≡ unless (list_any (fails_before_groups query.now) (lent rows.now)) (map (under (group_values query.now)) (lent rows.now))) }
{
    let mut keyed = Vec::new(alloc);
    for row in rows {
        let rows = *row;
        match group_key(alloc, query, arguments, rows)? {
            Some(key) => keyed.push(Keyed { key, rows })?,
            None => return Ok(None),
        }
    }
    Ok(Some(keyed))
}

fn one_group<'a>(
    alloc: Global,
    rows: &[&'a Combination],
    nothing: &'a Combination,
) -> Result<Vec<Taken<'a>>, NoMemory>
    requires { nothing.now ≡ [] }
    ensures { IfOk result (λ groups. map over_of groups.items ≡ over_all (lent rows.now) ∷ []) }
{
    let first = match rows.first() {
        Some(first) => *first,
        None => nothing,
    };
    let members = Vec::from_slice(alloc, rows)?;
    let mut groups = Vec::new(alloc);
    groups.push(Taken {
        rows: first,
        group: Some(members),
    })?;
    Ok(groups)
}

/// The groups of the combinations, or None where a GROUP BY value or an aggregate's argument is an error.
pub fn groups<'a>(
    alloc: Global,
    query: &Query,
    arguments: &[&Expr],
    rows: &[&'a Combination],
    nothing: &'a Combination,
) -> Result<Option<Vec<Taken<'a>>>, NoMemory>
    requires arguments { lent arguments.now ≡ arguments_of query.now }
    requires nothing { nothing.now ≡ [] }
    ensures { IfOk result (λ groups. option_map (λ g. map over_of g.items) groups ≡ unless (list_any (fails_before_groups query.now) (lent rows.now)) (groups_at query.now (lent rows.now))) }
{
    let Some(mut keyed) = under_group_keys(alloc, query, arguments, rows)? else {
        return Ok(None);
    };
    if query.group.is_empty() {
        let groups = one_group(alloc, rows, nothing)?;
        return Ok(Some(groups));
    }
    sort_by_keys(&mut keyed)?;
    let groups = cut(alloc, &keyed)?;
    Ok(Some(groups))
}

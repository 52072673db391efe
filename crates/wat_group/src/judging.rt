ghost use Rattle.std.specs.Prelude.{◌≡◌, map, IfOk};
ghost use Rattle.std.specs.List.{filter as where_true, list_any};
ghost use Rattle.std.specs.Option.{option_map};
ghost use Rattle.wat_expr.specs.Evaluation.{over};
ghost use Rattle.wat_group.specs.Query.{unless, condition_at, line_at, fails_at, fails_group, is_kept};
ghost use Rattle.wat_group.specs.Private.{judged};
ghost use Rattle.wat_walk.specs.Lent.{lent};
ghost use Rattle.wat_group.specs.Private.{over_of};

use crate::line::Line;
use crate::making::line_at;
use crate::taken::Taken;
use std::alloc::Global;
use wat_ast::Query;
use wat_expr::Outcome;
use wat_list::NoMemory;
use wat_value::Combination;

/// What becomes of a group.
#[derive(Drop)]
pub enum Judged {
    /// HAVING, an item or what ORDER BY reads is an error.
    Failed,
    /// HAVING does not keep it.
    Dropped,
    Kept(Line),
}

fn having(alloc: Global, query: &Query, at: &Taken) -> Result<Outcome, NoMemory>
    ensures { IfOk result (λ o. o ≡ condition_at (over_of at.now) query.now.having) }
{
    match &query.having {
        None => Ok(Outcome::True),
        Some(condition) => at.outcome(alloc, condition),
    }
}

fn judge(alloc: Global, query: &Query, group: &Taken) -> Result<Judged, NoMemory>
    ensures { IfOk result (λ j. j ≡ judged query.now (over_of group.now)) }
{
    let outcome = having(alloc, query, group)?;
    if outcome.is_error() {
        return Ok(Judged::Failed);
    }
    let Some(line) = line_at(alloc, query, group)? else {
        return Ok(Judged::Failed);
    };
    if outcome.is_true() {
        Ok(Judged::Kept(line))
    } else {
        Ok(Judged::Dropped)
    }
}

/// The lines of the groups that HAVING keeps, or None where a group fails.
pub fn group_lines(
    alloc: Global,
    query: &Query,
    groups: &[Taken],
) -> Result<Option<Vec<Line>>, NoMemory>
    ensures { IfOk result (λ lines. option_map (λ l. l.items) lines ≡ unless (list_any (fails_group query.now) (map over_of groups.now)) (map (line_at query.now) (where_true (is_kept query.now) (map over_of groups.now)))) }
{
    let mut lines = Vec::new(alloc);
    for group in groups {
        let line = match judge(alloc, query, group)? {
            Judged::Failed => return Ok(None),
            Judged::Dropped => continue,
            Judged::Kept(line) => line,
        };
        lines.push(line)?;
    }
    Ok(Some(lines))
}

/// The lines of the combinations, or None where one fails.
pub fn plain_lines(
    alloc: Global,
    query: &Query,
    rows: &[&Combination],
) -> Result<Option<Vec<Line>>, NoMemory>
    ensures { IfOk result (λ lines. option_map (λ l. l.items) lines ≡ unless (list_any (λ r. fails_at query.now (over r)) (lent rows.now)) (map (λ r. line_at query.now (over r)) (lent rows.now))) }
{
    let mut lines = Vec::new(alloc);
    for row in rows {
        let at = Taken {
            rows: *row,
            group: None,
        };
        match line_at(alloc, query, &at)? {
            Some(line) => lines.push(line)?,
            None => return Ok(None),
        }
    }
    Ok(Some(lines))
}

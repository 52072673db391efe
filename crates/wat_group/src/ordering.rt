ghost use Rattle.std.specs.Prelude.{◌≡◌, map, IfOk, OnOk};
ghost use Rattle.wat_group.specs.Query.{ordered};

use crate::line::Line;
use std::alloc::Global;
use wat_list::{Items, NoMemory};
use wat_value::Rows;

fn sort(lines: &mut Vec<Line>) -> Result<(), NoMemory>
    ensures { OnOk result (lines.new.items ≡ ordered lines.old.items) }
{
    lines.sort_by(|a, b| a.order.as_slice().cmp(b.order.as_slice()))?;
    Ok(())
}

/// The rows of the lines, in the order of these.
pub fn rows_in_order(alloc: Global, mut lines: Vec<Line>) -> Result<Rows, NoMemory>
    ensures { IfOk result (λ rows. rows ≡ map (λ line. line.row) (ordered lines.items)) }
{
    sort(&mut lines)?;
    let mut rows = Items::new(alloc);
    for line in lines {
        let Line { row, order: _ } = line;
        rows.push(row)?;
    }
    Ok(rows)
}

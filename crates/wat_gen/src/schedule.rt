ghost use Rattle.std.specs.Prelude.{IfOk};
ghost use Rattle.wat_gen.specs.Numbers.{Gives};
ghost use Rattle.wat_gen.specs.Schedule.{drawn_schedule};

use crate::draws::Draws;
use std::alloc::Global;
use wat_list::NoMemory;
use wat_schedule::{Item, Items};

/// The schedule: first the turns in which connection 1 fills the table, and then as many turns that
/// are drawn as the transactions have statements.
pub(crate) fn draw_schedule(alloc: Global, draws: &mut Draws, count: u32) -> Result<Items, NoMemory>
    ensures { IfOk result (λ items. Gives (drawn_schedule count) draws.old.number items draws.new.number) }
{
    let mut items = Items::new(alloc);
    for _ in 0..103u8 {
        items.push(Item {
            conn: 1,
            single: false,
        })?;
    }
    for _ in 0..32 * u64::from(count) {
        items.push(draws.turn())?;
    }
    Ok(items)
}

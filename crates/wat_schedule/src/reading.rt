ghost use Rattle.std.specs.Prelude.{◌≡◌, ◌≢◌, ℕ, List, IfOk, IfSome, IfNone, decimal};
ghost use Rattle.wat_schedule.specs.declared.item.Item.{Item};
ghost use Rattle.wat_schedule.specs.Schedule.{IsConnection, IsSchedule, item_text};

use crate::item::{Item, Items};
use std::alloc::Global;
use wat_list::NoMemory;

/// The connection whose number the digits are, if there is one.
fn read_connection(digits: &str, count: u16) -> Option<u16>
    ensures some { IfSome result (λ conn. (digits.now ≡ decimal conn) × IsConnection count conn) }
    ensures none { IfNone result ((conn : ℕ) → IsConnection count conn → digits.now ≢ decimal conn) }
{
    if digits.starts_with('0') || digits.starts_with('+') {
        return None;
    }
    match digits.parse::<u16>() {
        Ok(conn) if conn <= count => Some(conn),
        _ => None,
    }
}

/// The item that is written so, if there is one.
fn read_item(word: &str, count: u16) -> Option<Item>
    ensures some { IfSome result (λ item. (word.now ≡ item_text item) × IsConnection count item.conn) }
    ensures none { IfNone result ((item : Item) → IsConnection count item.conn → word.now ≢ item_text item) }
{
    match word.strip_suffix('.') {
        Some(digits) => {
            let conn = read_connection(digits, count)?;
            Some(Item { conn, single: true })
        }
        None => {
            let conn = read_connection(word, count)?;
            Some(Item {
                conn,
                single: false,
            })
        }
    }
}

/// The items of which the text is the schedule, for connections from 1 to `count`; none where it is
/// no schedule.
pub fn items(alloc: Global, text: &str, count: u16) -> Result<Option<Items>, NoMemory>
    ensures some { IfOk result (λ read. IfSome read (λ items. IsSchedule count text.now items)) }
    ensures none { IfOk result (λ read. IfNone read ((items : List Item) → ¬ IsSchedule count text.now items)) }
{
    let mut items = Items::new(alloc);
    if text.is_empty() {
        return Ok(Some(items));
    }
    for word in text.split(' ') {
        let Some(item) = read_item(word, count) else {
            return Ok(None);
        };
        items.push(item)?;
    }
    Ok(Some(items))
}

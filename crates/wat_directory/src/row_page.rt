ghost use Rattle.std.specs.Prelude.{◌≡◌};

use wat_list::Items;
use wat_rows::RowName;

/// A row page: how many bytes its cells take, and the names of its rows in the order of the cells.
#[derive(Drop)]
pub struct RowPage {
    pub used: u32,
    pub names: Items<RowName>,
}

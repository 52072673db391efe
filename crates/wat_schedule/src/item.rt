use std::alloc::Global;
use wat_list::{Copied, NoMemory};

/// A turn of a connection.
#[derive(Clone, Copy, Debug, PartialEq, Eq)]
pub struct Item {
    /// The connection. They are counted from 1.
    pub conn: u16,
    /// It makes one step. Otherwise it goes on to the end of a statement, or until it waits.
    pub single: bool,
}

/// The turns of a schedule in their order.
pub type Items = wat_list::Items<Item>;

impl Copied for Item {
    fn copy(&self, _alloc: Global) -> Result<Self, NoMemory> {
        Ok(*self)
    }
}

// The rows of which changes were undone.
ghost use Rattle.std.specs.Prelude.{◌≡◌, IfOk, OnOk};
ghost use Rattle.std.specs.Option.{option_copied};
ghost use Rattle.wat_undoable.specs.Trial.{undone_at, IsPlaced, SetsUndone, IsNew};

use std::alloc::{AllocError, Global};
use wat_directory::Places;
use wat_list::NoMemory;
use wat_value::{Key, Row};

/// A row after changes of it were undone, and the connection that had changed it.
#[derive(Drop)]
pub(crate) struct Undone {
    pub(crate) conn: u16,
    pub(crate) row: Option<Row>,
}

/// The rows of which changes were undone, by table and key. A look-up costs a logarithm.
#[derive(Drop)]
pub(crate) struct Trial {
    alloc: Global,
    places: Places,
    rows: Vec<Undone>,
}

impl Trial {
    pub(crate) fn new(alloc: Global) -> Self
        ensures { IsNew result }
    {
        let places = Places::new(alloc);
        let rows = Vec::new(alloc);
        Trial {
            alloc,
            places,
            rows,
        }
    }

    pub(crate) fn get(&self, table: u32, key: &Key) -> Option<&Undone>
        ensures { option_copied result ≡ undone_at self.now table key.now }
    {
        match self.places.get(table, key) {
            Some(place) => self.rows.get(place as usize),
            None => None,
        }
    }

    pub(crate) fn set(&mut self, table: u32, key: Key, undone: Undone) -> Result<(), NoMemory>
        ensures { IsPlaced self.old → OnOk result (SetsUndone table key undone self.old self.new) }
    {
        let place = self.rows.len();
        if place >= 4_294_967_295 {
            return Err(AllocError);
        }
        self.rows.push(undone)?;
        match self.places.set(self.alloc, table, key, place as u32) {
            Ok(()) => Ok(()),
            Err(error) => Err(error),
        }
    }
}

ghost use Rattle.std.specs.Prelude.{◌≡◌, ◌+◌, ◌*◌, ◌↔◌, ◌<◌, ◌≤◌, ◌==◌, ◌++◌, ◌∷◌, [], ℕ, length, Some, None, true, is_some, if◌then◌else◌, remove, IfOk, IfSome, IfNone, IsSome, IsTrue, OnOk};
ghost use Rattle.std.specs.List.{position};
ghost use Rattle.wat_list.specs.Has.{Has};
ghost use Rattle.wat_list.specs.Rising.{rising};
ghost use Rattle.wat_value.specs.Order.{key_cmp};
ghost use Rattle.wat_room.specs.Rooms.{AreRooms, IsLeastWith};
ghost use Rattle.wat_rows.specs.Rows.{Row, RowMap, name_is};

use crate::{Places, RowPage};
use std::alloc::Global;
use std::collections::BTreeMap;
use std::mem;
use wat_list::{Copied, Items, NoMemory};
use wat_room::Rooms;
use wat_rows::RowName;
use wat_value::{Key, Keys};

/// How many bytes the cells of a page take at most, with their lengths.
const ROOM: u32 = 4_080;

/// Where a row stands: its page, and which of the page's cells it is, from 0 on.
#[derive(Clone, Copy, Debug, PartialEq, Eq)]
pub struct Spot {
    pub page: u32,
    pub cell: usize,
}

/// The row pages, with the names of their rows, and where each row stands. A look-up costs a logarithm.
#[derive(Drop)]
pub struct Directory {
    alloc: Global,
    places: Places,
    pages: BTreeMap<u32, RowPage>,
    rooms: Rooms,
}

fn cut(names: &mut Items<RowName>, cell: usize)
    ensures { cell < length names.old → names.new ≡ remove names.old cell }
{
    if cell < names.len() {
        names.remove(cell);
    }
}

impl RowPage {
    ghost use Rattle.wat_directory.specs.Known.{room_left};

    fn room(&self) -> u16
        ensures { result ≡ room_left (Some self.now) }
    {
        ROOM.saturating_sub(self.used) as u16
    }

    fn position(&self, table: u32, key: &Key) -> Option<usize>
        ensures { result ≡ position (name_is table key.now) self.now.names }
    {
        self.names.as_slice().iter().position(
            |name: &RowName| -> bool
                ensures { result ≡ name_is table key.entry.now name.now }
            { name.table == table && name.key == *key },
        )
    }
}

impl Directory {
    ghost use Rattle.wat_directory.specs.Known.{page_at, place_at, room_at, room_left, names_in, row_pages, spot_at, used_bytes, IsLeastRoom, NoRoom, NoRoomFor};
    ghost use Rattle.wat_directory.specs.Steps.{SetsPage, SetsPlace, SamePlaces};

    /// A directory of no pages.
    pub fn new(alloc: Global) -> Self
        ensures pages { (page : ℕ) → page_at result page ≡ None }
        ensures places { (table : ℕ) (key : Row) → place_at result table key ≡ None }
        ensures rooms { (page : ℕ) → room_at result page ≡ 0 }
        ensures are { AreRooms result.rooms }
        ensures count { row_pages result ≡ 0 }
    {
        Directory {
            alloc,
            places: Places::new(alloc),
            pages: BTreeMap::new(alloc),
            rooms: Rooms::Full,
        }
    }

    /// Where the row with this name stands.
    pub fn spot(&self, table: u32, key: &Key) -> Option<Spot>
        ensures { result ≡ spot_at self.now table key.now }
    {
        let page = self.places.get(table, key)?;
        let row_page = self.pages.get(&page)?;
        let cell = row_page.position(table, key)?;
        Some(Spot { page, cell })
    }

    /// Whether a row with this name stands.
    pub fn has(&self, table: u32, key: &Key) -> bool
        ensures { result ≡ is_some (place_at self.now table key.now) }
    {
        self.places.get(table, key).is_some()
    }

    /// The keys of a table's rows, in their order.
    pub fn keys(&self, table: u32) -> Result<Keys, NoMemory>
        ensures order { IfOk result (λ keys. rising key_cmp keys ≡ true) }
        ensures all { IfOk result (λ keys. (key : Row) → Has key keys ↔ IsSome (place_at self.now table key)) }
    {
        self.places.keys(self.alloc, table)
    }

    /// Whether the row on this page stands alone there.
    pub fn is_alone(&self, page: u32) -> bool
        ensures { IsTrue result ↔ (length (names_in (page_at self.now page)) ≡ 1) }
    {
        match self.pages.get(&page) {
            Some(row_page) => row_page.names.len() == 1,
            None => false,
        }
    }

    /// Where no row page has room for a row of at most 3,500 bytes, whose cell takes at most 3,506, the row pages have 501 bytes
    /// of cells each, taken together. The call does nothing: it tells so.
    pub fn pages_law(&self)
        ensures { (rows : RowMap) (table : ℕ) (key : Row) (size : ℕ) → size ≤ 3506 → NoRoomFor self.now rows table key size → 501 * row_pages self.now ≤ used_bytes self.now }
    {
        // That the pages are kept by their numbers is known where they are counted.
        let _count = self.pages.len();
    }

    /// The least page with room for so many bytes of cells.
    pub fn least_with(&self, size: u16) -> Option<u32>
        requires { 0 < size }
        ensures some { AreRooms self.now.rooms → IfSome result (IsLeastWith self.now.rooms size) }
        ensures none { AreRooms self.now.rooms → IfNone result ((page : ℕ) → room_at self.now page < size) }
    {
        self.rooms.least_with(size)
    }

    fn set_room(&mut self, page: u32, room: u16) -> Result<(), NoMemory>
        requires { page < 4294967295 }
        ensures rooms { AreRooms self.old.rooms → OnOk result ((other : ℕ) → room_at self.new other ≡ (if page == other then room else room_at self.old other)) }
        ensures are { AreRooms self.old.rooms → OnOk result (AreRooms self.new.rooms) }
        ensures pages { self.new.pages ≡ self.old.pages }
        ensures places { self.new.places ≡ self.old.places }
    {
        let rooms = mem::replace(&mut self.rooms, Rooms::Full);
        self.rooms = rooms.with(self.alloc, page, room)?;
        Ok(())
    }

    fn set_page(&mut self, page: u32, row_page: RowPage) -> Result<(), NoMemory>
        requires { page < 4294967295 }
        ensures page { OnOk result (SetsPage page (Some row_page) self.old self.new) }
        ensures places { self.new.places ≡ self.old.places }
        ensures count { OnOk result (row_pages self.new ≡ row_pages self.old + (if is_some (page_at self.old page) then 0 else 1)) }
    {
        self.set_room(page, row_page.room())?;
        self.pages.insert(page, row_page)?;
        Ok(())
    }

    /// What is known of a page, which is taken out. A page that isn't known has no rows.
    fn take_page(&mut self, page: u32) -> RowPage
        ensures names { result.names ≡ names_in (page_at self.old page) }
        ensures pages { (other : ℕ) → page_at self.new other ≡ (if page == other then None else page_at self.old other) }
        ensures rooms { self.new.rooms ≡ self.old.rooms }
        ensures places { self.new.places ≡ self.old.places }
        ensures count { row_pages self.new + (if is_some (page_at self.old page) then 1 else 0) ≡ row_pages self.old }
    {
        match self.pages.remove(&page) {
            Some(row_page) => row_page,
            None => RowPage {
                used: 0,
                names: Items::new(self.alloc),
            },
        }
    }

    /// A page of no rows is a row page now.
    pub fn open(&mut self, page: u32) -> Result<(), NoMemory>
        requires { page < 4294967295 }
        ensures page { OnOk result (SetsPage page (Some (record { used = 0; names = [] })) self.old self.new) }
        ensures places { SamePlaces self.old self.new }
        ensures count { OnOk result (row_pages self.new ≡ row_pages self.old + (if is_some (page_at self.old page) then 0 else 1)) }
    {
        let names = Items::new(self.alloc);
        self.set_page(page, RowPage { used: 0, names })
    }

    /// A row more is on the page, behind those that stand there, and its cells take so many bytes now. A page that wasn't known is
    /// a row page now.
    pub fn add(&mut self, page: u32, used: u32, name: RowName) -> Result<(), NoMemory>
        requires { page < 4294967295 }
        ensures page { OnOk result (SetsPage page (Some (record { used = used; names = names_in (page_at self.old page) ++ name ∷ [] })) self.old self.new) }
        ensures place { OnOk result (SetsPlace name.table name.key (Some page) self.old self.new) }
        ensures count { OnOk result (row_pages self.new ≡ row_pages self.old + (if is_some (page_at self.old page) then 0 else 1)) }
    {
        let key = name.key.copy(self.alloc)?;
        let table = name.table;
        let mut row_page = self.take_page(page);
        row_page.names.push(name)?;
        row_page.used = used;
        self.set_page(page, row_page)?;
        self.places.set(self.alloc, table, key, page)
    }

    /// The cells of the page's rows take so many bytes now.
    pub fn resize(&mut self, page: u32, used: u32) -> Result<(), NoMemory>
        requires { page < 4294967295 }
        ensures page { OnOk result (SetsPage page (Some (record { used = used; names = names_in (page_at self.old page) })) self.old self.new) }
        ensures places { SamePlaces self.old self.new }
        ensures count { OnOk result (row_pages self.new ≡ row_pages self.old + (if is_some (page_at self.old page) then 0 else 1)) }
    {
        let mut row_page = self.take_page(page);
        row_page.used = used;
        self.set_page(page, row_page)
    }

    /// The row in this cell of the page is gone, and the cells of the others take so many bytes.
    pub fn take_off(&mut self, spot: Spot, used: u32, table: u32, key: &Key) -> Result<(), NoMemory>
        requires { spot.page < 4294967295 }
        ensures page { OnOk result (spot.cell < length (names_in (page_at self.old spot.page)) → SetsPage spot.page (Some (record { used = used; names = remove (names_in (page_at self.old spot.page)) spot.cell })) self.old self.new) }
        ensures place { OnOk result (SetsPlace table key.now None self.old self.new) }
        ensures count { OnOk result (row_pages self.new ≡ row_pages self.old + (if is_some (page_at self.old spot.page) then 0 else 1)) }
    {
        let mut row_page = self.take_page(spot.page);
        cut(&mut row_page.names, spot.cell);
        row_page.used = used;
        self.set_page(spot.page, row_page)?;
        self.places.unset(table, key)
    }

    /// The page is no row page any more. The row with this name, which was the last on it, stands nowhere.
    pub fn forget(&mut self, page: u32, table: u32, key: &Key) -> Result<(), NoMemory>
        requires { page < 4294967295 }
        ensures page { OnOk result (SetsPage page None self.old self.new) }
        ensures place { OnOk result (SetsPlace table key.now None self.old self.new) }
        ensures count { OnOk result (row_pages self.new + (if is_some (page_at self.old page) then 1 else 0) ≡ row_pages self.old) }
    {
        self.take_page(page);
        self.set_room(page, 0)?;
        self.places.unset(table, key)
    }
}

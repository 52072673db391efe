// The least page with room, found over halves of halves of all pages.
ghost use Rattle.std.specs.Prelude.{◌≡◌, ◌↔◌, ◌+◌, ◌<◌, ◌≤◌, ◌==◌, ℕ, max, nat_lt, if◌then◌else◌, IsTrue, IfOk, IfSome, IfNone};
ghost use Rattle.wat_room.specs.Rooms.{room_in, most_in, AreBetween, AreRooms, IsLeastWith};

use std::alloc::{AllocError, Global};

/// How much room each page has. A page that was never told has none.
#[derive(Drop)]
pub enum Rooms {
    /// No page has room.
    Full,
    /// One page, and its room.
    Page(u32, u16),
    /// The pages below a boundary, the boundary, the pages from it on, and the most room of any.
    Split(Box<Rooms>, u32, Box<Rooms>, u16),
}

/// A page between these, where there are two.
fn middle(from: u32, to: u32) -> u32
    requires { from + 1 < to }
    ensures { (from < result) × (result < to) }
{
    from + (to - from) / 2
}

impl Rooms {
    fn most(&self) -> u16
        ensures { result ≡ most_in self.now }
    {
        match self {
            Rooms::Full => 0,
            Rooms::Page(_, room) => *room,
            Rooms::Split(_, _, _, most) => *most,
        }
    }

    /// The least page with so much room, if there is one.
    pub fn least_with(&self, size: u16) -> Option<u32>
        ensures some { (from to : ℕ) → AreBetween self.now from to → 0 < size → IfSome result (IsLeastWith self.now size) }
        ensures within { (from to : ℕ) → AreBetween self.now from to → 0 < size → IfSome result (λ page. (from ≤ page) × (page < to)) }
        ensures none { (from to : ℕ) → AreBetween self.now from to → 0 < size → IfNone result ((page : ℕ) → room_in self.now page < size) }
    {
        match self {
            Rooms::Full => None,
            Rooms::Page(number, room) => { if *room >= size { Some(*number) } else { None } }
            Rooms::Split(low, _, high, most) => {
                if *most < size {
                    return None;
                }
                match low.least_with(size) {
                    Some(page) => Some(page),
                    None => high.least_with(size),
                }
            }
        }
    }

    /// Whether no other page is told of.
    fn is_of(&self, page: u32) -> bool
        ensures alone { IsTrue result → (other : ℕ) → room_in self.now other ≡ (if page == other then room_in self.now other else 0) }
        ensures two { (from to : ℕ) → AreBetween self.now from to → from ≤ page → page < to → to ≤ from + 1 → IsTrue result }
    {
        match self {
            Rooms::Full => true,
            Rooms::Page(number, _) => *number == page,
            Rooms::Split(..) => false,
        }
    }

    /// The pages below a boundary, the boundary, and the pages from it on.
    fn parted(self, from: u32, to: u32) -> (Rooms, u32, Rooms)
        requires { from + 1 < to }
        ensures between { (from < result.1) × (result.1 < to) }
        ensures rooms { AreBetween self from to → (page : ℕ) → room_in self page ≡ (if nat_lt page result.1 then room_in result.0 page else room_in result.2 page) }
        ensures low { AreBetween self from to → AreBetween result.0 from result.1 }
        ensures high { AreBetween self from to → AreBetween result.2 result.1 to }
    {
        let half = middle(from, to);
        match self {
            Rooms::Full => (Rooms::Full, half, Rooms::Full),
            Rooms::Page(number, room) => {
                if number < half {
                    (Rooms::Page(number, room), half, Rooms::Full)
                } else {
                    (Rooms::Full, half, Rooms::Page(number, room))
                }
            }
            Rooms::Split(low, boundary, high, _) => {
                if from < boundary && boundary < to {
                    (Box::into_inner(low), boundary, Box::into_inner(high))
                } else {
                    (Rooms::Full, half, Rooms::Full)
                }
            }
        }
    }

    fn join(alloc: Global, low: Rooms, boundary: u32, high: Rooms) -> Result<Rooms, AllocError>
        ensures rooms { IfOk result (λ joined. (page : ℕ) → room_in joined page ≡ (if nat_lt page boundary then room_in low page else room_in high page)) }
        ensures between { (from to : ℕ) → AreBetween low from boundary → AreBetween high boundary to → from < boundary → boundary < to → IfOk result (λ joined. AreBetween joined from to) }
    {
        let most = low.most().max(high.most());
        let low = Box::new(alloc, low)?;
        let high = Box::new(alloc, high)?;
        Ok(Rooms::Split(low, boundary, high, most))
    }

    /// The rooms of pages between these, where this one has so much.
    fn with_between(
        self,
        alloc: Global,
        from: u32,
        to: u32,
        page: u32,
        room: u16,
    ) -> Result<Rooms, AllocError>
        requires from { from ≤ page }
        requires to { page < to }
        ensures rooms { AreBetween self from to → IfOk result (λ rooms. (other : ℕ) → room_in rooms other ≡ (if page == other then room else room_in self other)) }
        ensures between { AreBetween self from to → IfOk result (λ rooms. AreBetween rooms from to) }
    {
        if self.is_of(page) || to - from < 2 {
            return Ok(Rooms::Page(page, room));
        }
        let (low, boundary, high) = self.parted(from, to);
        if page < boundary {
            let low = low.with_between(alloc, from, boundary, page, room)?;
            Rooms::join(alloc, low, boundary, high)
        } else {
            let high = high.with_between(alloc, boundary, to, page, room)?;
            Rooms::join(alloc, low, boundary, high)
        }
    }

    /// The rooms, where this page has so much. The page is none of number 4,294,967,295.
    pub fn with(self, alloc: Global, page: u32, room: u16) -> Result<Rooms, AllocError>
        requires { page < 4294967295 }
        ensures rooms { AreRooms self → IfOk result (λ rooms. (other : ℕ) → room_in rooms other ≡ (if page == other then room else room_in self other)) }
        ensures are { AreRooms self → IfOk result AreRooms }
    {
        self.with_between(alloc, 0, u32::MAX, page, room)
    }
}

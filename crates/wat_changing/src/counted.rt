ghost use Rattle.std.specs.Prelude.{◌≡◌};
ghost use Rattle.wat_changing.specs.Decided.{reply_of};

use wat_meaning::Reply;

/// What the reply of a statement counts.
#[derive(Clone, Copy, Debug)]
pub enum Counted {
    Inserted,
    Updated,
    Deleted,
}

impl Counted {
    /// The reply that counts so many rows.
    pub fn reply(self, count: u64) -> Reply
        ensures { result ≡ reply_of self count }
    {
        match self {
            Counted::Inserted => Reply::Inserted(count),
            Counted::Updated => Reply::Updated(count),
            Counted::Deleted => Reply::Deleted(count),
        }
    }
}

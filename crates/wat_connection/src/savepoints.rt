// The savepoints of a transaction, the latest last.
ghost use Rattle.std.specs.Prelude.{◌≡◌, [], MatchOption};
ghost use Rattle.wat_history.specs.Connection.{back_from};
ghost use Rattle.wat_connection.specs.Savepoints.{IsNewest, saves_of};

use wat_name::Name;

/// A savepoint, and how many changes of the transaction stood there.
#[derive(Debug, Drop)]
pub(crate) struct Savepoint {
    pub(crate) name: Name,
    pub(crate) standing: u32,
}

/// How many savepoints are left where those behind the newest of this name go.
pub(crate) fn up_to_newest(savepoints: &[Savepoint], name: &Name) -> Option<usize>
    ensures { MatchOption result (back_from name.now (saves_of savepoints.now) ≡ []) (IsNewest savepoints.now name.now) }
{
    let mut left = savepoints.len();
    while left > 0 {
        if name.as_str() == savepoints[left - 1].name.as_str() {
            return Some(left);
        }
        left -= 1;
    }
    None
}

ghost use Rattle.std.specs.Prelude.{◌≡◌, None};
ghost use Rattle.wat_locks.specs.declared.lock.Resource.TheVariants.{Row, Gap};

use wat_locks::{Lock, LockKind, Resource, Want};
use wat_value::{Key, Place};

pub fn row_want(kind: LockKind, table: u32, key: Key, short: Option<u32>) -> Want
    ensures { result ≡ record { lock = record { kind = kind; resource = Row table key }; short = short } }
{
    Want {
        lock: Lock {
            kind,
            resource: Resource::Row { table, key },
        },
        short,
    }
}

pub fn gap_want(kind: LockKind, table: u32, index: u8, place: Place) -> Want
    ensures { result ≡ record { lock = record { kind = kind; resource = Gap table index place }; short = None } }
{
    Want {
        lock: Lock {
            kind,
            resource: Resource::Gap {
                table,
                index,
                place,
            },
        },
        short: None,
    }
}

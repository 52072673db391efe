ghost use Rattle.std.specs.Prelude.{◌≡◌, ◌<◌, length, slice_get, Some};

use sqlite_items::Items;

/// The item at `i`, counted from 0.
pub fn item<T>(list: &Items<T>, i: usize) -> &T
    requires { i < length list.now }
    ensures { slice_get list.now i ≡ Some result.now }
{
    &list.as_slice()[i]
}

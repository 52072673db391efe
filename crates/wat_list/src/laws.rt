//! Laws of lists.
ghost use Rattle.std.specs.Prelude.{List, IsPermutation};
ghost use Rattle.wat_list.specs.Has.{HasSame, IsOnce};

/// Lists with the same items, each once, are the same in another order.
pub fn once_law<T>()
    ensures { (xs ys : List T) → IsOnce xs → IsOnce ys → HasSame xs ys → IsPermutation xs ys }
{}

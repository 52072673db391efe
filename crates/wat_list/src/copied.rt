ghost use Rattle.std.specs.Prelude.{◌≡◌, IfOk};

use crate::NoMemory;
use sqlite_items::{Boxed, Items};
use std::alloc::Global;

/// A value of which an equal one can be made, unless memory is wanted.
///
/// The copy takes its memory from `alloc`.
pub trait Copied: Sized {
    fn copy(&self, alloc: Global) -> Result<Self, NoMemory>
        ensures { IfOk result (λ copy. copy ≡ self.now) };
}

impl<T: Copied + Drop> Copied for Items<T> {
    fn copy(&self, alloc: Global) -> Result<Self, NoMemory> {
        let mut copies = Items::new(alloc);
        for item in self.as_slice() {
            copies.push(item.copy(alloc)?)?;
        }
        Ok(copies)
    }
}

impl<T: Copied + Drop> Copied for Boxed<T> {
    fn copy(&self, alloc: Global) -> Result<Self, NoMemory> {
        let value = self.get().copy(alloc)?;
        Boxed::new(alloc, value)
    }
}

impl<T: Copied> Copied for Option<T> {
    fn copy(&self, alloc: Global) -> Result<Self, NoMemory> {
        match self {
            None => Ok(None),
            Some(value) => Ok(Some(value.copy(alloc)?)),
        }
    }
}

impl Copied for bool {
    fn copy(&self, _alloc: Global) -> Result<Self, NoMemory> {
        Ok(*self)
    }
}

impl Copied for u8 {
    fn copy(&self, _alloc: Global) -> Result<Self, NoMemory> {
        Ok(*self)
    }
}

impl Copied for u16 {
    fn copy(&self, _alloc: Global) -> Result<Self, NoMemory> {
        Ok(*self)
    }
}

impl Copied for u32 {
    fn copy(&self, _alloc: Global) -> Result<Self, NoMemory> {
        Ok(*self)
    }
}

impl Copied for u64 {
    fn copy(&self, _alloc: Global) -> Result<Self, NoMemory> {
        Ok(*self)
    }
}

impl Copied for i64 {
    fn copy(&self, _alloc: Global) -> Result<Self, NoMemory> {
        Ok(*self)
    }
}

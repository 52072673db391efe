use crate::lock::Lock;
use std::alloc::Global;
use wat_list::{Copied, Items, NoMemory};

/// A wanted lock.
#[derive(Debug, Drop)]
pub struct Want {
    pub lock: Lock,
    /// The number of the scan for whose visit alone it is wanted.
    pub short: Option<u32>,
}

pub type Wants = Items<Want>;

impl Copied for Want {
    fn copy(&self, alloc: Global) -> Result<Self, NoMemory> {
        let lock = self.lock.copy(alloc)?;
        Ok(Want {
            lock,
            short: self.short,
        })
    }
}

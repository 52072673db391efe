ghost use Rattle.std.specs.Prelude.{◌≡◌, ◌+◌, ◌≤◌, ◌++◌, length, take, drop, replicate, IfOk};

use std::alloc::Global;
use std::marker::Model;
use wat_list::NoMemory;

/// A page: 4,096 bytes, which contracts see as their list.
#[derive(Drop)]
pub struct Page {
    bytes: Vec<u8>,
}

impl Model for Page {
    ghost use Rattle.std.specs.Prelude.{◌≡◌, ℕ, List, length};

    ghost Value = { List ℕ };

    ghost view = { λ page. page.bytes.items };

    ghost invariant = { λ page. length page.bytes.items ≡ 4096 };
}

impl Page {
    /// A page of zeros.
    pub fn new(alloc: Global) -> Result<Self, NoMemory>
        ensures zeros { IfOk result (λ page. page ≡ replicate 4096 0) }
        ensures whole { IfOk result (λ page. length page ≡ 4096) }
    {
        Ok(Page {
            bytes: vec![in alloc; 0; 4096]?,
        })
    }

    /// The page of these bytes, of which there are 4,096.
    pub fn of(alloc: Global, bytes: &[u8]) -> Result<Self, NoMemory>
        requires { length bytes.now ≡ 4096 }
        ensures bytes { IfOk result (λ page. page ≡ bytes.now) }
        ensures whole { IfOk result (λ page. length page ≡ 4096) }
    {
        Ok(Page {
            bytes: bytes.to_vec(alloc)?,
        })
    }

    /// The bytes.
    pub fn as_slice(&self) -> &[u8]
        ensures bytes { result.now ≡ self.now }
        ensures whole { length self.now ≡ 4096 }
    {
        self.bytes.as_slice()
    }

    /// Takes over these bytes, of which there are 4,096.
    pub fn copy_from(&mut self, bytes: &[u8])
        requires { length bytes.now ≡ 4096 }
        ensures { self.new ≡ bytes.now }
    {
        self.bytes.as_mut_slice().copy_from_slice(bytes);
    }

    /// Writes bytes over those from a place on. They end within the page.
    pub fn write_at(&mut self, at: usize, bytes: &[u8])
        requires { at + length bytes.now ≤ 4096 }
        ensures bytes { self.new ≡ take at self.old ++ bytes.now ++ drop (at + length bytes.now) self.old }
        ensures was_whole { length self.old ≡ 4096 }
        ensures whole { length self.new ≡ 4096 }
    {
        paste(&mut self.bytes, at, bytes);
    }
}

fn paste(held: &mut Vec<u8>, at: usize, bytes: &[u8])
    requires { at + length bytes.now ≤ length held.old.items }
    ensures bytes { held.new.items ≡ take at held.old.items ++ bytes.now ++ drop (at + length bytes.now) held.old.items }
    ensures length { length held.new.items ≡ length held.old.items }
{
    held[at..at + bytes.len()].copy_from_slice(bytes);
}

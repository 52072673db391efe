ghost use Rattle.std.specs.Prelude.{◌≡◌, ℕ, [], ◌<◌, ◌≤◌, Some, min, length, vec_len, vec_capacity, IfOk, IsErr, is_err};
ghost use Rattle.std.specs.Io.KnownBytes.{WriteAppends};
ghost use Rattle.wat_faults.specs.Faults.{counted, HasCause};

use crate::calls::Calls;
use crate::sink::{Sink, SinkFault};
use std::alloc::{AllocError, Global};

/// A sink in memory with room for so many bytes in all, of which the writes with these numbers fail.
#[derive(Drop)]
pub struct MemorySink {
    taken: Vec<u8>,
    room: u64,
    writes: Calls,
    ghost within: { vec_len taken ≤ room },
    ghost held: { room ≤ vec_capacity taken },
}

impl MemorySink {
    ghost use Rattle.wat_io.specs.MemorySink.{bytes_of, room_of, fails_of, writes_of, faults_of};

    /// A sink that has taken nothing yet. The memory for `room` bytes is taken here, and no write wants more. `fails`
    /// has the numbers of the writes that fail, from 0.
    pub fn new(alloc: Global, room: u64, fails: Vec<u64>) -> Result<Self, AllocError>
        ensures bytes { IfOk result (λ sink. bytes_of sink ≡ []) }
        ensures room { IfOk result (λ sink. room_of sink ≡ room) }
        ensures fails { IfOk result (λ sink. fails_of sink ≡ fails.items) }
        ensures writes { IfOk result (λ sink. writes_of sink ≡ 0) }
        ensures faults { IfOk result (λ sink. faults_of sink ≡ 0) }
    {
        let taken = Vec::with_capacity(alloc, room as usize)?;
        Ok(MemorySink {
            taken,
            room,
            writes: Calls::new(fails),
        })
    }

    /// What it took.
    pub fn bytes(&self) -> &[u8]
        ensures { result.now ≡ bytes_of self.now }
    {
        self.taken.as_slice()
    }
}

impl Sink for MemorySink {
    ghost use Rattle.wat_io.specs.MemorySink.{bytes_of, room_of, room_left, fails_of, writes_of, is_to_fail, faults_of};

    ghost taken = { λ sink. Some (bytes_of sink) };

    ghost faults = { faults_of };

    fn write(&mut self, bytes: &[u8]) -> Result<usize, SinkFault>
        requires { 0 < length bytes.now }
        ensures count { IfOk result (λ n. (0 < n) × (n ≤ length bytes.now)) }
        ensures taken { WriteAppends (Some (bytes_of self.old)) (Some (bytes_of self.new)) result bytes.now }
        ensures faults { HasCause (faults_of self.old) (faults_of self.new) (IsErr result) }

        // The writes that fail are those that were listed, and those for which no room is left.
        ensures listed { is_err result ≡ is_to_fail self.old }
        ensures fills { IfOk result (λ n. n ≡ min (room_left self.old) (length bytes.now)) }

        // Each write counts as one, and leaves the list and the room in all as they were.
        ensures fails { fails_of self.new ≡ fails_of self.old }
        ensures writes { writes_of self.new ≡ counted (writes_of self.old) }
        ensures room { room_of self.new ≡ room_of self.old }
    {
        let listed = self.writes.begin();
        let left = self.room as usize - self.taken.len();
        let count = left.min(bytes.len());
        if listed || count == 0 {
            self.writes.fail();
            return Err(SinkFault);
        }
        match self.taken.extend_from_slice(&bytes[..count]) {
            Ok(()) => Ok(count),
            Err(_) => unreachable!(),
        }
    }
}

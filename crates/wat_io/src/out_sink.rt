ghost use Rattle.std.specs.Prelude.{◌≡◌, ℕ};

use crate::sink::{Sink, SinkFault};
use std::io::Write;

/// A sink over any writer of std, as standard output. Each write goes straight to the writer: a full or closed output
/// fails in the write that meets it, so a writer that buffers should not stand below it.
#[derive(Drop)]
pub struct OutSink<W: Write> {
    out: W,
    faults: u64,
}

impl<W: Write> OutSink<W> {
    /// No write was made yet: what was taken is what the writer holds.
    pub fn new(out: W) -> Self
        ensures taken { W.contents result.out ≡ W.contents out }
        ensures faults { result.faults ≡ 0 }
    {
        OutSink { out, faults: 0 }
    }
}

impl<W: Write> Sink for OutSink<W> {
    ghost taken = { λ sink. W.contents sink.out };

    ghost faults = { λ sink. sink.faults };

    fn write(&mut self, bytes: &[u8]) -> Result<usize, SinkFault> {
        match self.out.write(bytes) {
            Ok(count) if count > 0 => Ok(count),
            _ => {
                self.faults = self.faults.saturating_add(1);
                Err(SinkFault)
            }
        }
    }
}

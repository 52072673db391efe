ghost use Rattle.std.specs.Prelude.{◌≡◌, ℕ, List, ◌<◌, ◌≤◌, Option, length, IfOk, OnOk, OnErr, IsErr};
ghost use Rattle.std.specs.Io.KnownBytes.{Appends, WriteAppends};
ghost use Rattle.wat_faults.specs.Faults.{HasCause};
ghost use Rattle.wat_io.specs.Sink.{AppendsPart};

/// The sink failed, and counted the fault.
#[derive(Clone, Copy, Debug, PartialEq, Eq)]
pub struct SinkFault;

/// Where the program prints.
pub trait Sink {
    /// The bytes that were taken, where this is told.
    ghost taken: { Self → Option (List ℕ) };

    /// How often a write has failed.
    ghost faults: { Self → ℕ };

    /// Takes the first bytes of the piece, at least one, and answers how many. One that fails takes none.
    /// No write gives back what was taken before.
    fn write(&mut self, bytes: &[u8]) -> Result<usize, SinkFault>
        requires { 0 < length bytes.now }
        ensures count { IfOk result (λ n. (0 < n) × (n ≤ length bytes.now)) }
        ensures taken { WriteAppends (taken self.old) (taken self.new) result bytes.now }

        // A fault is counted exactly where a write fails.
        ensures faults { HasCause (faults self.old) (faults self.new) (IsErr result) };
}

/// Writes all the bytes, or a proper prefix of them where the sink fails.
pub fn write_all<K: Sink>(out: &mut K, bytes: &[u8]) -> Result<(), SinkFault>
    ensures ok { OnOk result (Appends (K.taken out.old) (K.taken out.new) bytes.now) }
    ensures err { OnErr result (AppendsPart (K.taken out.old) (K.taken out.new) bytes.now) }
    ensures faults { HasCause (K.faults out.old) (K.faults out.new) (IsErr result) }
{
    let mut from = 0;
    while from < bytes.len() {
        from += out.write(&bytes[from..])?;
    }
    Ok(())
}

/// What stands between two steps of a connection.
pub trait Gate {
    /// Called by connection `conn` before its step number `step`, with no lock held. It returns when the step may be made.
    fn between(&self, conn: u16, step: u64);
}

/// A gate that is always open.
#[derive(Clone, Copy, Debug, Default, PartialEq, Eq)]
pub struct FreeGate;

impl Gate for FreeGate {
    fn between(&self, _conn: u16, _step: u64) {}
}

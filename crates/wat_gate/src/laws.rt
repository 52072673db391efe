ghost use Rattle.std.specs.Prelude.{◌≡◌, ◌↔◌, ℕ, List};
ghost use Rattle.wat_gate.specs.Bodies.{IsGateLog, IsWhole, bodies};

/// The law of gate logs: bytes are a gate log of some bodies exactly where the log is whole and its bodies are these. So
/// a log has one list of bodies, which `bodies` finds.
pub fn gate_log_law()
    ensures { (content : List ℕ) (all : List (List ℕ)) → IsGateLog all content ↔ ((bodies content ≡ all) × IsWhole content) }
{}

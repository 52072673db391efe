//! What the program meets outside its disk: scripts under their names, a sink for what it prints, and a gate between steps.
#![tactic(auto)]

mod asked;
mod calls;
mod file_scripts;
mod gate;
mod memory_scripts;
mod memory_sink;
mod out_sink;
mod scripts;
mod sink;

pub use asked::Asked;
pub use file_scripts::FileScripts;
pub use gate::{FreeGate, Gate};
pub use memory_scripts::MemoryScripts;
pub use memory_sink::MemorySink;
pub use out_sink::OutSink;
pub use scripts::{ScriptError, Scripts};
pub use sink::{Sink, SinkFault, write_all};

//! The meaning of a statement over tables, computed, and scripts run by it.
#![tactic(auto)]

mod changing;
mod computing;
mod duplicates;
mod laws;
mod plain;
mod script;

pub use computing::meaning;
pub use laws::script_laws;
pub use script::{ScriptRefusal, run_script};

//! The connections of an engine and their locks. A connection that asks for locks gets them, is told that another one holds
//! them, waits for them, or would close a cycle of connections that wait for one another. Every other call does one word of
//! the definition of steps, as far as it is about connections and locks. The tables, the vacant keys and the disk stand
//! beside.
#![tactic(auto)]

mod asking;
mod core_state;
mod laws;
mod opened;
mod waiting;

pub use asking::{Told, ask};
pub use core_state::Core;
pub use laws::{blocked_law, fresh_law, going_on_law};
pub use waiting::requests;

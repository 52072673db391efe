//! How a command of the program begins: the scripts that it names, and why it is not done.
#![tactic(auto)]

mod fault;
mod scripts;

pub use fault::Fault;
pub use scripts::read_scripts;

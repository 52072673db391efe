//! What the program does with its words, over any scripts, disk and output.
#![tactic(auto)]

mod performing;
mod tool;
mod words;
mod writing;

pub use performing::Done;
pub use tool::{Finish, run, run_tool};
pub use words::{exit_code, words_of};
pub use writing::report;

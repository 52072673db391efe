//! The types of a session: what the connections were asked, and what they were answered.
#![tactic(auto)]

mod answer;
mod script;
mod session;

pub use answer::{Answer, Reason, Reply};
pub use script::{Script, ScriptList};
pub use session::{Entry, Moments, Session, TableName, TableNames, Transcript, Transcripts};

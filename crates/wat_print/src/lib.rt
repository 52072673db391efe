//! The printed text of values and of a session.
#![tactic(auto)]

mod answer;
mod lines;
mod literal;
mod lock;
mod refusal;
mod session;

pub use literal::push_row;
pub use session::printed;

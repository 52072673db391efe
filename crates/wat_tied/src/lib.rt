//! The state of the core is tied to a state of the law of isolation, and so its transactions are serial. Laws, and no code.
#![tactic(auto)]

mod laws;

pub use laws::{
    answer_law, begun_law, change_law, end_law, plain_law, ready_law, steps_keep_tied, tied_laws,
    transcripts_tell, visit_law,
};

//! How much room pages have, so that the least page with enough is found without a walk over all of them.
#![tactic(auto)]

mod rooms;

pub use rooms::Rooms;

//! Calls of the lock layer, with answers that are worked out by hand.
#![tactic(auto)]

#[cfg(test)]
mod asking;
#[cfg(test)]
mod cycles;
#[cfg(test)]
mod fixtures;
#[cfg(test)]
mod levels;

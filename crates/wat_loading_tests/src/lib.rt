//! Opening files in which one thing is broken, with answers that are worked out by hand from the walk over them.
#![tactic(auto)]

#[cfg(test)]
mod files;
#[cfg(test)]
mod opening;

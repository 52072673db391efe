//! Calls of the disk and of a gate log on it, with answers that are worked out by hand from their rules.
#![tactic(auto)]

#[cfg(test)]
mod calls;
#[cfg(test)]
mod files;
#[cfg(test)]
mod logs;
#[cfg(test)]
mod stops;

//! Calls of pages and of cells, with answers that are worked out by hand from their rules, and what stops leave of checkpoints.
#![tactic(auto)]

#[cfg(test)]
mod cells;
#[cfg(test)]
mod checkpoints;
#[cfg(test)]
mod files;
#[cfg(test)]
mod limits;
#[cfg(test)]
mod opening;
#[cfg(test)]
mod steps;

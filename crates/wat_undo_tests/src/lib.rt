//! The changes to roll back, in memory and on a chain of pages, with answers that are worked out by hand from their rules.
#![tactic(auto)]

#[cfg(test)]
mod damage;
#[cfg(test)]
mod files;
#[cfg(test)]
mod lists;
#[cfg(test)]
mod saved;

//! Chains of pages, with answers that are worked out by hand from their rules.
#![tactic(auto)]

#[cfg(test)]
mod chains;
#[cfg(test)]
mod damage;
#[cfg(test)]
mod files;

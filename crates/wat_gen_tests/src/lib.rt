//! Texts of schedules, and sessions that are made up, with texts that are worked out from the rules by other means.
#![tactic(auto)]

#[cfg(test)]
mod schedules;
#[cfg(test)]
mod sessions;

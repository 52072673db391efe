//! Calls of a store by two connections, across a checkpoint, with changes undone and a change of the schema: stopped at every
//! moment, and with each call of the disk failing once. The tables are worked out by hand.
#![tactic(auto)]

#[cfg(test)]
mod calls;
#[cfg(test)]
mod changes;
#[cfg(test)]
mod script;
#[cfg(test)]
mod seen;
#[cfg(test)]
mod stops;

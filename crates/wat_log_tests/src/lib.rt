//! The transaction log on a disk in memory: its bytes, its calls, what stops and faults leave of it, and what is read back.
#![tactic(auto)]

#[cfg(test)]
mod bodies;
#[cfg(test)]
mod buffers;
#[cfg(test)]
mod bytes;
#[cfg(test)]
mod entries;
#[cfg(test)]
mod steps;
#[cfg(test)]
mod stops;

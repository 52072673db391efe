//! Calls of what stands around a session: the words, scripts and sinks, and the printed text. The answers are worked out
//! by hand from their rules.
#![tactic(auto)]

#[cfg(test)]
mod fixtures;
#[cfg(test)]
mod printing;
#[cfg(test)]
mod scripts;
#[cfg(test)]
mod sinks;
#[cfg(test)]
mod words;

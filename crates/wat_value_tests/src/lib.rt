//! Calls of lists, words, names and values, with answers that are worked out by hand.
#![tactic(auto)]

#[cfg(test)]
mod bounds;
#[cfg(test)]
mod fitting;
#[cfg(test)]
mod lists;
#[cfg(test)]
mod maps;
#[cfg(test)]
mod rows;
#[cfg(test)]
mod words;

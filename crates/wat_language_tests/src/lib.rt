//! Calls of the crates of the language, with answers that are worked out by hand from its rules.
#![tactic(auto)]

#[cfg(test)]
mod expressions;
#[cfg(test)]
mod lexing;
#[cfg(test)]
mod parsing;
#[cfg(test)]
mod reader;
#[cfg(test)]
mod spelling;
#[cfg(test)]
mod statements;
#[cfg(test)]
mod trees;

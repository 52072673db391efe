//! Records of the transaction log: their bytes, as they are worked out by hand, and what they do on a target.
#![tactic(auto)]

#[cfg(test)]
mod bytes;
#[cfg(test)]
mod entries;
#[cfg(test)]
mod machine;
#[cfg(test)]
mod recovery;
#[cfg(test)]
mod shelf;

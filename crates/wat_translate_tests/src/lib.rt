//! Logs that are read back as SQL, with texts that are worked out by hand from the rules of the language, and what each text
//! makes when it is run again.
#![tactic(auto)]

#[cfg(test)]
mod databases;
#[cfg(test)]
mod interleaved;
#[cfg(test)]
mod records;
#[cfg(test)]
mod refused;
#[cfg(test)]
mod scripts;

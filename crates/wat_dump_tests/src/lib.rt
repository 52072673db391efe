//! Tables that are written as SQL, with texts that are worked out by hand from the rules of the language, and what each text makes
//! when it is run.
#![tactic(auto)]

#[cfg(test)]
mod dumps;

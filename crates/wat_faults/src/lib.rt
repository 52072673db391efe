//! Counts of faults: how an object that may fail by itself tells of it. Definitions, and no code.
#![tactic(auto)]

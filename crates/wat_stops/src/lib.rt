//! What a stop at any moment leaves of commits, whatever it is that restart gives. Definitions with their lemmas, and no code.
#![tactic(auto)]

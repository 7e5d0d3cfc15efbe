//! Lemmas on lists, options, tests and numbers that proofs of several crates use. They speak of std alone.
#![tactic(auto)]

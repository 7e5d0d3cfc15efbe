//! What files say of runs is enough to run them: the texts of Boogie, run files of it, and run files of methods.
//!
//! The lemmas stand in `proofs/`; this crate has no running code but the laws about them.
#![tactic(auto)]

pub mod laws;

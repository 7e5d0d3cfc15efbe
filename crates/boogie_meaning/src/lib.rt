//! The meaning of Boogie: types, the value of an expression in an environment, and the runs of procedures.
//!
//! The definitions stand in `specs/`; this crate has no running code but the laws about them.
#![tactic(auto)]

pub mod assume_laws;
pub mod laws;
pub mod run_laws;

//! The meaning of Viper: the value of an expression in a state, and how the body of a predicate is opened.
//!
//! The definitions stand in `specs/`; this crate has no running code but the laws about them.
#![tactic(auto)]

pub mod choice_laws;
pub mod fallback_laws;
pub mod laws;
pub mod run_laws;
pub mod sat_laws;
pub mod statement_laws;
pub mod unit_laws;

//! The meaning of whole executions: called bodies and the turns of loops run on one state, within a budget.
//!
//! The definitions stand in `specs/`; this crate has no running code but the laws about them.
#![tactic(auto)]

pub mod budget_laws;
pub mod frame_laws;
pub mod laws;

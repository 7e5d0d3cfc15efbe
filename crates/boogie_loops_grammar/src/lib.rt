//! The grammar of Boogie with loops, calls and contracts, and which bytes spell which program of it.
//!
//! The definitions stand in `specs/`; this crate has no running code.
#![tactic(auto)]

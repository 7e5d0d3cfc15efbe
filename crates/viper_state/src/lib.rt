//! The states of a Viper program, what a run of it takes from outside, and what it records.
//!
//! `specs/` has the plain data that contracts see of them: a `Vec` is its list, and a `Sparse` its map with a default.
#![tactic(auto)]

mod copies;
mod known;
pub mod laws;
pub mod layout_laws;
mod places;
mod runs;
mod states;

pub use copies::{copy_memo, copy_state, empty_state, keys_known};
pub use known::Known;
pub use runs::{Choice, Event, Feed, Opening, Outcome, Scene};
pub use states::{Memo, State};

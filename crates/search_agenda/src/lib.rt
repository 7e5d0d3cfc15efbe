//! What the search looks at next, what that waits for, and which literals it wants decided.
#![tactic(auto)]

mod agenda;
mod going_back;
mod items;

pub use agenda::Agenda;
pub use items::{Item, Note};

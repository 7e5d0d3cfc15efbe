//! The text of a program's translation, sent to a sink step after step.
#![tactic(auto)]

mod counts;
mod heads;
mod holding;
mod light;
mod passes;
mod procedures;
mod stream;
mod writing;

pub use counts::Written;
pub use stream::{encode_to, unit_locals};

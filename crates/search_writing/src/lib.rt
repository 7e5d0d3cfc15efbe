//! The text of a certificate: the terms, definitions and steps that are needed for some steps, and no others.
#![tactic(auto)]

mod needed;
mod text;
mod words;

pub use text::write;

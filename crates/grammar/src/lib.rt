//! Grammars as data, read from the left: definitions, and the laws with which a parser is proved exact.
#![tactic(auto)]

mod stop;

pub use stop::{Read, Stop};

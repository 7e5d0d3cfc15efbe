//! The grammar of Viper, and what its parser does at once: it reads a single token, and builds a term of its parts.
#![tactic(auto)]

pub mod build;
mod levels;
mod parts;
mod stops;
pub mod tokens;

pub use levels::{repeats, right_level};
pub use parts::{Shape, WordClass, WrittenInstance, WrittenTerm};
pub use stops::fault;

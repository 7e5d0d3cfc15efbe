//! Which texts the theorem of the frame speaks of: those without `wildcard`, `inhale` and `assume`. What is asked of
//! a text is defined over its tokens: `first_unframed` finds the first of these words, and a law says that where there is none
//! the program has none of them either.
#![tactic(auto)]

pub mod laws;
mod words;

pub use words::first_unframed;

//! The conditions of a procedure, as terms of the search.
#![tactic(auto)]

mod conditions;
mod expressions;

pub use conditions::read;

//! The typing of Viper: the one typed program that a tree is, or the first rule that it breaks.
//!
//! `specs/` has the typing judgement, and the walk that tells the first broken rule. Laws tie them.
#![tactic(auto)]

mod assertions;
mod assigned;
mod calls;
mod copied;
mod creations;
mod declarations;
mod expressions;
mod faults;
mod formals;
mod frames;
pub mod laws;
mod listed;
mod methods;
mod predicates;
mod program;
mod simple;
mod statements;

pub use faults::TypeFault;
pub use program::check;

//! A file of Boogie, from its name to its well-typed program and one of its procedures, or why it is refused.
#![tactic(auto)]

mod accepting;
pub mod laws;
mod refusal;
mod trouble;

pub use accepting::{accepted, boogie_program, found, procedure_named};
pub use refusal::BoogieRefusal;
pub use trouble::BoogieTrouble;

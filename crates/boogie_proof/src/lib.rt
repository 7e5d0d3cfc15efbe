//! The proof that no procedure of a text of Boogie has a failing run, as one call: from the bytes of the text and from certificates to what
//! is shown of each of its procedures.
//!
//! The contract of `proved` speaks of Boogie alone. It does not depend on where certificates come from, since each is checked against the
//! conditions of its procedure.
#![tactic(auto)]

mod conditions;
mod procedures;
mod proving;

pub use conditions::procedure_conditions;
pub use procedures::procedure_answers;
pub use proving::proved;

//! Terms, each once, and what they are: operators, sums, what a `forall` says at keys, and the conditions of a procedure.
#![tactic(auto)]

mod foralls;
mod forms;
mod kinds;
mod making;
mod ops;
mod problem;
mod terms;

pub use foralls::Forall;
pub use forms::Meaning;
pub use kinds::TermKind;
pub use ops::TermOp;
pub use problem::Problem;
pub use terms::{Form, Terms};

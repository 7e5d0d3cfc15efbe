//! The search: goals are refuted one after the other, by propagation, decisions and clauses that are learned, and the steps say why each
//! is false.
#![tactic(auto)]

mod bases;
mod deciding;
mod explaining;
mod extending;
mod grounds;
mod hints;
mod keeping;
mod refuting;
mod resolving;

pub use keeping::Paid;
pub use refuting::{Refutation, Refuted, begin_anew, refute, refute_all};

//! Propagation: what follows from literals that are true, by clauses, by congruence and by constructors of contents, each with the steps
//! that say it.
#![tactic(auto)]

mod cycles;
mod equalities;
mod following;
mod gates;
mod proofs;
mod ways;

pub use cycles::cycle;
pub use equalities::{close, differs, either, same};
pub use following::propagate;
pub use gates::{attach, attach_all, gate};
pub use proofs::prove;

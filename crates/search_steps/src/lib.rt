//! The steps of a certificate in the making: their reasons, the step for a sum, and clauses that are put together.
#![tactic(auto)]

mod lemmas;
mod rules;
mod steps;
mod sums;

pub use lemmas::{Lemma, chain_step, path_step};
pub use rules::StepRule;
pub use steps::Steps;
pub use sums::sum_step;

//! The reasons of a certificate's steps. Each gives a clause, some literal of which is true at all values of the names.
#![tactic(auto)]

mod clauses;
mod contents;
mod equality;
mod heads;
mod maps;
mod numbers;
mod products;
mod reading;
mod refuting;
mod shapes;
mod truths;

pub use contents::{apart, inside, part};
pub use equality::{path, same};
pub use maps::{hit, miss};
pub use numbers::{below, over, rest, split, zero};
pub use products::{FactorLaw, above, ring, times};
pub use refuting::rup;
pub use truths::{case, gate};

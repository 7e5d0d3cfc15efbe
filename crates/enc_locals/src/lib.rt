//! The fixed locals of a unit's procedure: their names, types and numbers, and what an opening sets in them.
#![tactic(auto)]

mod fixed;
mod local_types;
mod lookups;
mod named;
mod names;
mod numbers;
mod openings;
mod types;

pub use fixed::{fixed_locals, front_procedure};
pub use lookups::{method_at, predicate_at, unit_at, unit_vars};
pub use names::unit_name;
pub use numbers::Numbers;
pub use openings::start_env;
pub use types::{first_of, formals, front_types, other_types};

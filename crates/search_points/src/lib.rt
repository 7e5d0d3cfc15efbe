//! Values of numbers at which all is so that is assigned of them: whole numbers are whole, what differs differs, and products,
//! quotients and remainders are those of their parts.
#![tactic(auto)]

mod candidates;
mod faults;
mod limits;
mod operations;
mod tree;
mod vertices;
mod ways;

pub use operations::{number_at, operation, value_at};
pub use tree::point;

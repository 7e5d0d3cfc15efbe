//! What the definitions of conditions are told to be: their texts against the terms of a certificate.
#![tactic(auto)]

mod aliases;
mod definitions;
mod instances;
mod leaves;
mod names;
mod operators;
mod parts;
mod sizes;
mod texts;
mod wholes;

pub use aliases::{define, untold};
pub use instances::inst;

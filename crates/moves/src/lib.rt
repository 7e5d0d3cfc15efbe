//! Which choices of Boogie the events of a Viper run turn into, and how values and maps of Viper are those of Boogie.
#![tactic(auto)]

mod choices;
mod entries;
pub mod laws;
mod named;

pub use choices::moves;
pub use entries::{instance_key, place_key, scalar};
pub use named::{named_content, named_key, named_reference, named_scalar, named_value};

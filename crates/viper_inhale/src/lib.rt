//! Producing and consuming assertions, and forgetting what is not held, as `viper_meaning` defines them.
#![tactic(auto)]

mod answers;
mod calls;
mod choices;
mod consuming;
mod forgetting;
mod free_keys;
mod producing;
mod resources;

pub use answers::{Step, StepHalt, StepStop};
pub use calls::{consume, forget, produce, step};
pub use consuming::consume_in;
pub use forgetting::forget_in;
pub use producing::produce_in;

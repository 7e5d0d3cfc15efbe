//! Producing, consuming and forgetting as code of Boogie, whose runs go alongside those of Viper.
//!
//! `specs/` says what is written for each assertion (`Encoding`), in which locals permission is held (`Held`), and when the runs
//! of the code go alongside a run of Viper (`Alongside`).
#![tactic(auto)]

mod amounts;
pub mod call_laws;
mod calls;
mod consuming;
mod forgetting;
pub mod laws;
mod producing;
mod scales;
mod targets;

pub use calls::{consume_code, forget_code, produce_code};
pub use consuming::{Taking, consume};
pub use forgetting::forget;
pub use producing::produce;

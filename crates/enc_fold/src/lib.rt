//! Folding and unfolding predicates as code of Boogie, whose runs go alongside those of Viper.
//!
//! `specs/` says what is written (`Encoding`), and how a state is copied (`Saved`).
#![tactic(auto)]

pub mod call_laws;
mod calls;
mod folding;
pub mod laws;
mod saving;
mod unfolding;

pub use calls::{body_of, fold_code, unfold_code};
pub use folding::{always, fold};
pub use saving::{copy, copy_held, save};
pub use unfolding::unfold;

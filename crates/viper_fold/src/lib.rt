//! What assertions contain, and the folding and unfolding of predicates, as `viper_meaning` defines them.
#![tactic(auto)]

mod calls;
mod contents;
mod folding;
mod unfolding;

pub use calls::{Contained, content_of, fold, unfold};
pub use folding::fold_in;
pub use unfolding::unfold_in;

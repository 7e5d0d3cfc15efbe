//! Evaluation of Viper expressions, and the opening of predicates, as `viper_meaning` defines them.
#![tactic(auto)]

mod answers;
mod calls;
mod operators;
mod places;
mod readings;
mod scenes;

pub use answers::{EvalHalt, EvalStop, Evaluated, Opening1};
pub use calls::{eval, eval_open, open_body};
pub use operators::{assumed, failure, fitted, found};
pub use places::{InstanceKey, ScaledAmount, added, fill_held, key_of, take};
pub use readings::{
    amount_of, eval_all, eval_in, key_in, open_in, permission_of, reference_of, truth_of,
};
pub use scenes::SceneRef;

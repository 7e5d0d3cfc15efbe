//! Values of the variables of conditions, by what a search has assigned, and their text.
#![tactic(auto)]

mod contents;
mod making;
mod models;
mod spelling;
mod table;

pub use making::make_model;
pub use models::Model;
pub use spelling::put_model;
pub use table::{Value, ValueId, ValueTable};

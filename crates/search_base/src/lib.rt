//! What all of a search stands on: its end, its fuel, the numbers of terms, literals and steps, and lists by number.
#![tactic(auto)]

mod fuel;
mod intern;
mod lists;
mod names;
mod stop;

pub use fuel::Fuel;
pub use intern::Intern;
pub use lists::{
    copied, cut_to, distinct, extend_at, get, insert_sorted, list_at, number, pop_from, push_to,
    put_list, set, take_list,
};
pub use names::{SignedTerm, StepId, TermId};
pub use stop::{Found, SearchStop};

//! The text of formulas and of conditions: what a text spells, and the printer.
#![tactic(auto)]

mod laws;
mod printer;
mod put_exprs;
mod scopes;

pub use laws::{
    one_conditions, one_formula, spelled_conditions_are_printable, spelled_is_printable,
    written_conditions_are_spelled, written_is_spelled,
};
pub use printer::{print_conditions, print_formula};

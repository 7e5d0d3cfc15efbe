//! The text of Boogie as it is written: the printer of programs, also piece by piece, and the laws of what a text spells.
#![tactic(auto)]

mod asserts;
mod pieces;
mod printer;
mod put_exprs;
mod put_heads;
mod put_leaves;
mod put_stmts;
mod text_laws;

pub use asserts::count_asserts;
pub use pieces::{
    EmitFault, PrintedNames, put_code, put_head, put_if, write_code, write_else, write_end,
    write_head, write_if, write_prelude,
};
pub use printer::print;
pub use put_heads::{put_locals, put_type};
pub use put_leaves::{put_binders, put_names, put_number, put_operator, put_real, truth_text};
pub use put_stmts::{put_else, put_end};
pub use text_laws::{
    bound_names_are_fresh, nested_is_shallow, programs_are_written_in_pieces,
    statements_are_written_in_pieces, written_is_spelled,
};

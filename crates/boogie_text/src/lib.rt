//! The text of Boogie: the reader of programs, and by `boogie_print` the printer.
#![tactic(auto)]

mod bounds;
mod builds;
pub mod exprs;
pub mod havoc;
mod inside;
mod laws;
mod locals;
mod outside;
mod procs;
mod program;
mod public_tokens;
mod reader;
mod sign_bytes;
mod simple;
mod single_expr;
mod stmts;
pub mod texts;
mod types;

pub use boogie_grammar::BoogieFault;
pub use boogie_print::{
    EmitFault, PrintedNames, bound_names_are_fresh, count_asserts, nested_is_shallow, print,
    programs_are_written_in_pieces, put_binders, put_code, put_else, put_end, put_head, put_if,
    put_locals, put_names, put_number, put_operator, put_real, put_type,
    statements_are_written_in_pieces, truth_text, write_code, write_else, write_end, write_head,
    write_if, write_prelude, written_is_spelled,
};
pub use inside::{NextInside, next_local, next_statement};
pub use laws::{
    brackets_are_nested, not_refused, one_fault, one_place, one_program, one_tree,
    read_by_procedures, some_answer, some_text_answer, spelled_is_printable,
};
pub use outside::{Outside, next_outside};
pub use public_tokens::{BTok, BToken, tokens_after};
pub use reader::{end_after, read};
pub use single_expr::{ReadExpr, read_bexpr};
pub use types::type_of;

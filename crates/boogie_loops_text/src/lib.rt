//! The text of Boogie with loops, calls and contracts: its reader, and the laws of its grammar.
#![tactic(auto)]

mod bound;
mod calls;
mod heads;
mod laws;
mod parts;
mod procs;
mod program;
mod reader;
mod reserved;
mod simple;
mod stmts;
mod words;

pub use boogie_grammar::BoogieFault;
pub use laws::{
    not_refused, one_fault, one_program, one_tree, some_answer, some_text_answer,
    what_is_spelled_can_be_printed,
};
pub use reader::read_wide;

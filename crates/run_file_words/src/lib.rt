//! The words that both formats of run files are made of: values, keys, contents and names, read and printed.
//!
//! `specs/` says how they are spelled (`Values`), how lines are read one after the other (`Machine`), and what a reader answers
//! (`Answers`).
#![tactic(auto)]

mod contents;
mod faults;
mod first_words;
mod line_reader;
mod names;
mod printer;
mod texts;
mod values;

pub use contents::{key, whole_content};
pub use faults::RunFileFault;
pub use first_words::{FirstWord, first_word};
pub use line_reader::{LineReader, read_lines};
pub use names::{RunFileNames, numbered};
pub use printer::{
    put_content, put_fraction, put_key, put_number, put_reference, put_value, truth_text,
};
pub use texts::{is_skipped, is_word, next_line, next_word, single};
pub use values::{any_value, argument, fraction, reference, truth, value};

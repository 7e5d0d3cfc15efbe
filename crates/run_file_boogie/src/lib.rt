//! The run files of Boogie: which procedure's run one is, where the run begins, and the choices that it takes. They are read
//! and printed, also from the events of a run of Viper.
//!
//! `specs/` says which run a file spells (`BoogieRun`), and where a file goes wrong that spells none.
#![tactic(auto)]

pub mod boogie_laws;
mod boogie_lines;
mod boogie_names;
mod boogie_printer;
mod boogie_reader;
mod boogie_values;
mod moved_printer;
mod named;

pub use boogie_names::boogie_run_name;
pub use boogie_printer::print_boogie_run;
pub use boogie_reader::read_boogie_run;
pub use moved_printer::print_moved_run;

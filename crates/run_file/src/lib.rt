//! The files from which a run is read: where a unit begins, and the choices that it takes. They are read and printed.
//!
//! `specs/` says which run a file spells (`Run`), and where a file goes wrong that spells none.
#![tactic(auto)]

pub mod laws;
mod lines;
mod memos;
mod named;
mod named_sets;
mod names;
mod printer;
mod reader;
mod runs;

pub use moves::moves;
pub use printer::print_viper_run;
pub use reader::{read_viper_front, read_viper_run};
pub use run_file_boogie::{
    boogie_laws, boogie_run_name, print_boogie_run, print_moved_run, read_boogie_run,
};
pub use run_file_words::RunFileFault;
pub use runs::{ViperFront, ViperRun};

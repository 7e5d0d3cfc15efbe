//! Tables of rows: each row is a call of a program, and how it has to end. `docs/rows.md` says how a table is written.
#![tactic(auto)]

mod fault;
mod row;
mod table;
mod text;

pub use fault::Fault;
pub use row::{Call, Device, End, Row, Written, copies_of, files_of, words_of};
pub use table::Table;

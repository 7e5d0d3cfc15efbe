//! The terms of a certificate: what it adds to the names of a procedure's conditions, with types and values.
#![tactic(auto)]

mod faults;
mod growing;
mod parts;
mod readers;
mod table;
mod terms;
mod types;

pub use faults::{LineFault, LineRefusal};
pub use table::TermTable;
pub use terms::{CertificateTerm, ClauseLiteral, TypedTerm};
pub use types::copy_type;

//! Names that differ, each with its number, in hash maps that keep the order of insertion.
//!
//! A map hashes by a key that is a digest of what is read, so that whoever chooses names changes the key by each choice.
#![tactic(auto)]

mod keys;
mod table;

pub use keys::{Digest, NameKey};
pub use table::SymbolTable;

//! The tokens and the grammar of Boogie, and what its reader does at once: it cuts a text into tokens, counts brackets, and reads
//! a single token; and the names that are written for bound variables.
#![tactic(auto)]

mod depth;
pub mod eating;
mod faults;
mod front;
mod keys;
pub mod leaves;
mod lexer;
pub mod naming;
pub mod new_names;
mod parts;
mod pieces;
pub mod scopes;
pub mod signs;
mod stops;
mod tokens;

pub use depth::first_too_deep;
pub use faults::BoogieFault;
pub use front::after_prelude;
pub use keys::key_of;
pub use lexer::cut;
pub use parts::{NextPart, next_part};
pub use stops::fault;
pub use tokens::{BSign, BoogieWord, Lexeme, PlacedLexeme};

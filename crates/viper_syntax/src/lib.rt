//! The syntax of Viper: its tokens, the cut of a file into them, and the trees that a parser builds.
#![tactic(auto)]

mod decls;
mod faults;
mod laws;
mod lexer;
mod limits;
mod pieces;
mod signs;
mod stmts;
mod terms;
mod tokens;
mod words;

pub use decls::{Decl, SClause, SMethod, SourceProgram};
pub use faults::ParseFault;
pub use laws::{one_answer, one_cut, short_groups, some_answer};
pub use lexer::lex;
pub use stmts::{Formal, Named, SArm, SBlock, SCall, SFold, SNew, SRhs, SStmt};
pub use terms::{SUnfolding, Term};
pub use tokens::{LexFault, Sign, Tok, Token, Word};

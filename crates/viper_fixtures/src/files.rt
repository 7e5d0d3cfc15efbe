//! The typed program of a file, and the part of it that a row is about.
ghost use Rattle.std.specs.Prelude.{IfOk, IfSome};
ghost use Rattle.viper_core.specs.Formed.{IsFormed};
ghost use Rattle.viper_core.specs.View.{program_of, stmt_of};
ghost use Rattle.viper_meaning.specs.StatementLiterals.{IsWithinStmt};

use std::alloc::Global;
use std::test::Fail;
use vb_base::place_after;
use viper_core::{Program, Stmt};
use viper_parse::parse;
use viper_syntax::lex;
use viper_types::check;

/// The typed program of a text.
pub fn checked(alloc: Global, text: &[u8]) -> Result<Box<Program>, Fail>
    ensures { IfOk result (λ p. IsFormed (program_of p.value)) }
{
    if text.len() > 1_048_576 {
        return Err("a long file")?;
    }
    let tokens = lex(alloc, text)?;
    let source = parse(alloc, &tokens, place_after(text))?;
    Ok(Box::new(alloc, check(alloc, &source)?)?)
}

/// The typed program of a file that begins with `start`. Its second line is `end`, with the brace that closes the file.
pub fn program(alloc: Global, start: &str, end: &str) -> Result<Box<Program>, Fail>
    ensures { IfOk result (λ p. IsFormed (program_of p.value)) }
{
    let text = format!(in alloc; "{start}\n{end} }}")?;
    checked(alloc, text.as_bytes())
}

/// The first statement of the first method.
pub fn first_stmt(program: &Program) -> Option<&Stmt>
    requires { IsFormed (program_of program.now) }
    ensures { IfSome result (λ s. IsWithinStmt (stmt_of s.now)) }
{
    let method = program.methods.first()?;
    let body = method.body.as_ref()?;
    body.stmts.first()
}

// Statements without blocks.
ghost use Rattle.std.specs.Prelude.{◌<◌, length, IfOk};
ghost use Rattle.boogie_loops.specs.View.{wstmt_of};
ghost use Rattle.boogie_loops_grammar.specs.Grammar as g;
ghost use Rattle.boogie_loops_text.specs.Greedy.{Parses};
ghost use Rattle.boogie_loops_text.specs.View.{assuming, asserting, TakesVariable};

use crate::parts::{read_clause, whole_expr, whole_exprs};
use crate::reserved::Within;
use boogie_grammar::eating::{BoogieRead, eat_sign, need_sign};
use boogie_grammar::leaves::eat_variable;
use boogie_grammar::scopes::BoogieNames;
use boogie_grammar::{BSign, PlacedLexeme};
use boogie_loops::WStmt;
use grammar::Stop;

/// `bexpr ";"` after `assume`.
pub(crate) fn assumption<'a>(
    within: Within<'_>,
    tokens: &'a [PlacedLexeme],
) -> BoogieRead<'a, WStmt>
    ensures shorter { IfOk result (λ r. length r.1.now < length tokens.now) }
    ensures reads { Parses wstmt_of (assuming within.entry.locals.now) tokens.now result }
{
    let (claim, rest) = whole_expr(within, tokens)?;
    let (_, after) = need_sign(BSign::Semicolon, rest)?;
    Ok((WStmt::Assume(claim), after))
}

/// A label and `bexpr ";"` after `assert`.
pub(crate) fn assertion<'a>(within: Within<'_>, tokens: &'a [PlacedLexeme]) -> BoogieRead<'a, WStmt>
    ensures shorter { IfOk result (λ r. length r.1.now < length tokens.now) }
    ensures reads { Parses wstmt_of (asserting within.entry.locals.now) tokens.now result }
{
    let (claim, rest) = read_clause(within, tokens)?;
    Ok((WStmt::Assert(claim.label, claim.e), rest))
}

/// `":=" bexpr ";"`, or this after indices, behind the name of a variable.
pub(crate) fn assignment<'a>(
    within: Within<'_>,
    i: usize,
    tokens: &'a [PlacedLexeme],
) -> BoogieRead<'a, WStmt>
    ensures shorter { IfOk result (λ r. length r.1.now < length tokens.now) }
    ensures reads { Parses wstmt_of (g.assignment within.entry.locals.now i) tokens.now result }
{
    if let Some(rest) = eat_sign(BSign::OpenBracket, tokens) {
        let (indices, rest) = whole_exprs(within, rest)?;
        let (_, rest) = need_sign(BSign::Assign, rest)?;
        let (value, rest) = whole_expr(within, rest)?;
        let (_, after) = need_sign(BSign::Semicolon, rest)?;
        return Ok((WStmt::Put(i, indices, value), after));
    }
    let (_, rest) = need_sign(BSign::Assign, tokens)?;
    let (value, rest) = whole_expr(within, rest)?;
    let (_, after) = need_sign(BSign::Semicolon, rest)?;
    Ok((WStmt::Assign(i, value), after))
}

/// The number of the next variable, which must be next.
pub(crate) fn variable<'a>(
    locals: &BoogieNames,
    tokens: &'a [PlacedLexeme],
) -> BoogieRead<'a, usize>
    ensures shorter { IfOk result (λ r. length r.1.now < length tokens.now) }
    ensures takes { TakesVariable locals.now tokens.now result }
{
    match eat_variable(locals, tokens) {
        Some(eaten) => Ok(eaten),
        None => Err(Stop::Before(tokens)),
    }
}

// Statements.
ghost use Rattle.std.specs.Prelude.{◌≡◌, ◌<◌, ◌≤◌, [], Option, Some, None, true, length, IfOk};
ghost use Rattle.boogie_tree.specs.Expr as t;
ghost use Rattle.boogie_loops.specs.View.{wstmt_of};
ghost use Rattle.boogie_loops.specs.Wide as w;
ghost use Rattle.boogie_loops_grammar.specs.Grammar as g;
ghost use Rattle.boogie_loops_grammar.specs.Words.{has_no_word};
ghost use Rattle.boogie_loops_text.specs.Greedy.{Parses};
ghost use Rattle.boogie_loops_text.specs.View.{all_clauses_of, all_wstmts_of, block_of, picked, loop_of};

use crate::calls::call;
use crate::parts::{read_clause, whole_expr};
use crate::reserved::Within;
use crate::simple::{assertion, assignment, assumption};
use crate::words::{WideWord, eat_wide};
use boogie_grammar::eating::{BoogieRead, eat_sign, eat_word, need_sign, need_word};
use boogie_grammar::leaves::eat_variable;
use boogie_grammar::{BSign, BoogieWord, PlacedLexeme};
use boogie_loops::{Clause, WStmt};
use boogie_text::havoc::eat_havoc;
use vb_base::pushed;

/// `{ "invariant" mark bexpr ";" }`
fn invariants<'a>(within: Within<'_>, tokens: &'a [PlacedLexeme]) -> BoogieRead<'a, Vec<Clause>>
    ensures shorter { IfOk result (λ r. length r.1.now ≤ length tokens.now) }
    ensures reads { Parses all_clauses_of (g.rule (g.Invariants within.entry.locals.now [])) tokens.now result }
{
    let mut all = Vec::new(within.alloc);
    let mut rest = tokens;
    while let Some(after) = eat_wide(WideWord::Invariant, rest) {
        let (next, after) = read_clause(within, after)?;
        all = pushed(all, next)?;
        rest = after;
    }
    Ok((all, rest))
}

/// `{ wstmt } "}"`
#[cycle(blocks)]
pub(crate) fn statements<'a>(
    within: Within<'_>,
    tokens: &'a [PlacedLexeme],
) -> BoogieRead<'a, Vec<WStmt>>
    requires { has_no_word within.locals.now ≡ true }
    ensures shorter { IfOk result (λ r. length r.1.now < length tokens.now) }
    ensures reads { Parses all_wstmts_of (g.rule (g.Statements within.entry.locals.now [])) tokens.now result }
{
    let mut all = Vec::new(within.alloc);
    let mut rest = tokens;
    loop {
        if let Some(after) = eat_sign(BSign::CloseBrace, rest) {
            return Ok((all, after));
        }
        let (next, after) = statement(within, rest)?;
        all = pushed(all, next)?;
        rest = after;
    }
}

/// A statement.
#[cycle(blocks)]
fn statement<'a>(within: Within<'_>, tokens: &'a [PlacedLexeme]) -> BoogieRead<'a, WStmt>
    requires { has_no_word within.locals.now ≡ true }
    ensures shorter { IfOk result (λ r. length r.1.now < length tokens.now) }
    ensures reads { Parses wstmt_of (g.rule (g.Statement within.entry.locals.now)) tokens.now result }
{
    if let Some(rest) = eat_wide(WideWord::While, tokens) {
        return looped(within, rest);
    }
    if let Some(rest) = eat_wide(WideWord::Call, tokens) {
        return call(within, rest);
    }
    unworded(within, tokens)
}

/// A statement that begins with no word of loops and calls.
#[cycle(blocks)]
fn unworded<'a>(within: Within<'_>, tokens: &'a [PlacedLexeme]) -> BoogieRead<'a, WStmt>
    requires { has_no_word within.locals.now ≡ true }
    ensures shorter { IfOk result (λ r. length r.1.now < length tokens.now) }
    ensures reads { Parses wstmt_of (g.simple within.entry.locals.now) tokens.now result }
{
    if let Some(rest) = eat_word(BoogieWord::Assume, tokens) {
        return assumption(within, rest);
    }
    if let Some(rest) = eat_word(BoogieWord::Assert, tokens) {
        return assertion(within, rest);
    }
    if let Some((i, rest)) = eat_havoc(within.locals, tokens)? {
        let (_, after) = need_sign(BSign::Semicolon, rest)?;
        return Ok((WStmt::Havoc(i), after));
    }
    if let Some((i, rest)) = eat_variable(within.locals, tokens) {
        return assignment(within, i, rest);
    }
    conditional(within, tokens)
}

/// `"if" "(" ( bexpr | "*" ) ")" block [ "else" block ]`
#[cycle(blocks)]
fn conditional<'a>(within: Within<'_>, tokens: &'a [PlacedLexeme]) -> BoogieRead<'a, WStmt>
    requires { has_no_word within.locals.now ≡ true }
    ensures shorter { IfOk result (λ r. length r.1.now < length tokens.now) }
    ensures reads { Parses wstmt_of (g.conditional within.entry.locals.now) tokens.now result }
{
    let (_, rest) = need_word(BoogieWord::If, tokens)?;
    let (_, rest) = need_sign(BSign::OpenParen, rest)?;
    if let Some(rest) = eat_sign(BSign::Star, rest) {
        return either(within, rest);
    }
    choice(within, rest)
}

/// What follows the `*` of an `if`.
#[cycle(blocks)]
fn either<'a>(within: Within<'_>, tokens: &'a [PlacedLexeme]) -> BoogieRead<'a, WStmt>
    requires { has_no_word within.locals.now ≡ true }
    ensures shorter { IfOk result (λ r. length r.1.now < length tokens.now) }
    ensures reads { Parses wstmt_of (g.branches within.entry.locals.now w.Either) tokens.now result }
{
    let (_, rest) = need_sign(BSign::CloseParen, tokens)?;
    let (first, rest) = block(within, rest)?;
    let (second, rest) = otherwise(within, rest)?;
    Ok((WStmt::Either(first, second), rest))
}

/// What follows the `(` of an `if`, where it is no `*`.
#[cycle(blocks)]
fn choice<'a>(within: Within<'_>, tokens: &'a [PlacedLexeme]) -> BoogieRead<'a, WStmt>
    requires { has_no_word within.locals.now ≡ true }
    ensures shorter { IfOk result (λ r. length r.1.now < length tokens.now) }
    ensures reads { Parses wstmt_of (picked within.entry.locals.now) tokens.now result }
{
    let (condition, rest) = whole_expr(within, tokens)?;
    let (_, rest) = need_sign(BSign::CloseParen, rest)?;
    let (first, rest) = block(within, rest)?;
    let (second, rest) = otherwise(within, rest)?;
    Ok((WStmt::If(condition, first, second), rest))
}

/// `"(" ( bexpr | "*" ) ")" { "invariant" mark bexpr ";" } block` after `while`
#[cycle(blocks)]
fn looped<'a>(within: Within<'_>, tokens: &'a [PlacedLexeme]) -> BoogieRead<'a, WStmt>
    requires { has_no_word within.locals.now ≡ true }
    ensures shorter { IfOk result (λ r. length r.1.now < length tokens.now) }
    ensures reads { Parses wstmt_of (g.loop within.entry.locals.now) tokens.now result }
{
    let (_, rest) = need_sign(BSign::OpenParen, tokens)?;
    if let Some(rest) = eat_sign(BSign::Star, rest) {
        let ((invariants, body), rest) = turns(within, rest)?;
        return Ok((WStmt::While(None, invariants, body), rest));
    }
    let (guard, rest) = whole_expr(within, rest)?;
    let ((invariants, body), rest) = turns(within, rest)?;
    Ok((WStmt::While(Some(guard), invariants, body), rest))
}

/// The invariants and the body of a loop, after its guard.
#[cycle(blocks)]
fn turns<'a>(
    within: Within<'_>,
    tokens: &'a [PlacedLexeme],
) -> BoogieRead<'a, (Vec<Clause>, Vec<WStmt>)>
    requires { has_no_word within.locals.now ≡ true }
    ensures shorter { IfOk result (λ r. length r.1.now < length tokens.now) }
    ensures reads { (guard : Option t.BExpr) → Parses (loop_of guard) (g.looping within.entry.locals.now guard) tokens.now result }
{
    let (_, rest) = need_sign(BSign::CloseParen, tokens)?;
    let (all, rest) = invariants(within, rest)?;
    let (body, rest) = block(within, rest)?;
    Ok(((all, body), rest))
}

/// `"{" { wstmt } "}"`
#[cycle(blocks)]
fn block<'a>(within: Within<'_>, tokens: &'a [PlacedLexeme]) -> BoogieRead<'a, Vec<WStmt>>
    requires { has_no_word within.locals.now ≡ true }
    ensures shorter { IfOk result (λ r. length r.1.now < length tokens.now) }
    ensures reads { Parses block_of (g.rule (g.Block within.entry.locals.now)) tokens.now result }
{
    let (_, rest) = need_sign(BSign::OpenBrace, tokens)?;
    let (all, rest) = statements(within, rest)?;
    Ok((all, rest))
}

/// `[ "else" block ]`
#[cycle(blocks)]
fn otherwise<'a>(within: Within<'_>, tokens: &'a [PlacedLexeme]) -> BoogieRead<'a, Vec<WStmt>>
    requires { has_no_word within.locals.now ≡ true }
    ensures shorter { IfOk result (λ r. length r.1.now ≤ length tokens.now) }
    ensures reads { Parses block_of (g.rule (g.Else within.entry.locals.now)) tokens.now result }
{
    let Some(rest) = eat_word(BoogieWord::Else, tokens) else {
        let none = Vec::new(within.alloc);
        return Ok((none, tokens));
    };
    block(within, rest)
}

// Statements.
ghost use Rattle.std.specs.Prelude.{◌≡◌, ◌<◌, ◌≤◌, [], length, IfOk};
ghost use Rattle.boogie_tree.specs.Whole.{stmt_of};
ghost use Rattle.boogie_grammar.specs.Grammar as g;
ghost use Rattle.boogie_grammar.specs.Greedy.{Parses};
ghost use Rattle.boogie_text.specs.StmtView.{all_stmts_of, block_of, unpicked, picked};

use crate::havoc::eat_havoc;
use crate::simple::{assertion, assignment, assumption, whole_expr};
use boogie_grammar::eating::{BoogieRead, eat_sign, eat_word, need_sign, need_word};
use boogie_grammar::leaves::eat_variable;
use boogie_grammar::scopes::BoogieNames;
use boogie_grammar::{BSign, BoogieWord, PlacedLexeme};
use boogie_tree::BStmt;
use std::alloc::Global;
use vb_base::pushed;

/// `{ bstmt } "}"`
#[cycle(blocks)]
pub(crate) fn statements<'a>(
    alloc: Global,
    locals: &BoogieNames,
    tokens: &'a [PlacedLexeme],
) -> BoogieRead<'a, Vec<BStmt>>
    ensures shorter { IfOk result (λ r. length r.1.now < length tokens.now) }
    ensures reads { Parses all_stmts_of (g.rule (g.Statements locals.now [])) tokens.now result }
{
    let mut all = Vec::new(alloc);
    let mut rest = tokens;
    loop {
        if let Some(after) = eat_sign(BSign::CloseBrace, rest) {
            return Ok((all, after));
        }
        let (next, after) = statement(alloc, locals, rest)?;
        all = pushed(all, next)?;
        rest = after;
    }
}

/// A statement.
#[cycle(blocks)]
pub(crate) fn statement<'a>(
    alloc: Global,
    locals: &BoogieNames,
    tokens: &'a [PlacedLexeme],
) -> BoogieRead<'a, BStmt>
    ensures shorter { IfOk result (λ r. length r.1.now < length tokens.now) }
    ensures reads { Parses stmt_of (g.rule (g.Statement locals.now)) tokens.now result }
{
    if let Some(rest) = eat_word(BoogieWord::Assume, tokens) {
        return assumption(alloc, locals, rest);
    }
    if let Some(rest) = eat_word(BoogieWord::Assert, tokens) {
        return assertion(alloc, locals, rest);
    }
    if let Some((i, rest)) = eat_havoc(locals, tokens)? {
        let (_, after) = need_sign(BSign::Semicolon, rest)?;
        return Ok((BStmt::Havoc(i), after));
    }
    if let Some((i, rest)) = eat_variable(locals, tokens) {
        return assignment(alloc, locals, i, rest);
    }
    conditional(alloc, locals, tokens)
}

/// `"if" "(" ( bexpr | "*" ) ")" bblock [ "else" bblock ]`
#[cycle(blocks)]
fn conditional<'a>(
    alloc: Global,
    locals: &BoogieNames,
    tokens: &'a [PlacedLexeme],
) -> BoogieRead<'a, BStmt>
    ensures shorter { IfOk result (λ r. length r.1.now < length tokens.now) }
    ensures reads { Parses stmt_of (g.conditional locals.now) tokens.now result }
{
    let (_, rest) = need_word(BoogieWord::If, tokens)?;
    let (_, rest) = need_sign(BSign::OpenParen, rest)?;
    if let Some(rest) = eat_sign(BSign::Star, rest) {
        return either(alloc, locals, rest);
    }
    choice(alloc, locals, rest)
}

/// What follows the `*` of an `if`.
#[cycle(blocks)]
fn either<'a>(
    alloc: Global,
    locals: &BoogieNames,
    tokens: &'a [PlacedLexeme],
) -> BoogieRead<'a, BStmt>
    ensures shorter { IfOk result (λ r. length r.1.now < length tokens.now) }
    ensures reads { Parses stmt_of (unpicked locals.now) tokens.now result }
{
    let (_, rest) = need_sign(BSign::CloseParen, tokens)?;
    let (first, rest) = block(alloc, locals, rest)?;
    let (second, rest) = otherwise(alloc, locals, rest)?;
    Ok((BStmt::Either(first, second), rest))
}

/// What follows the `(` of an `if`, where it is no `*`.
#[cycle(blocks)]
fn choice<'a>(
    alloc: Global,
    locals: &BoogieNames,
    tokens: &'a [PlacedLexeme],
) -> BoogieRead<'a, BStmt>
    ensures shorter { IfOk result (λ r. length r.1.now < length tokens.now) }
    ensures reads { Parses stmt_of (picked locals.now) tokens.now result }
{
    let (condition, rest) = whole_expr(alloc, locals, tokens)?;
    let (_, rest) = need_sign(BSign::CloseParen, rest)?;
    let (first, rest) = block(alloc, locals, rest)?;
    let (second, rest) = otherwise(alloc, locals, rest)?;
    Ok((BStmt::If(condition, first, second), rest))
}

/// `"{" { bstmt } "}"`
#[cycle(blocks)]
fn block<'a>(
    alloc: Global,
    locals: &BoogieNames,
    tokens: &'a [PlacedLexeme],
) -> BoogieRead<'a, Vec<BStmt>>
    ensures shorter { IfOk result (λ r. length r.1.now < length tokens.now) }
    ensures reads { Parses block_of (g.rule (g.Block locals.now)) tokens.now result }
{
    let (_, rest) = need_sign(BSign::OpenBrace, tokens)?;
    let (all, rest) = statements(alloc, locals, rest)?;
    Ok((all, rest))
}

/// `[ "else" bblock ]`
#[cycle(blocks)]
fn otherwise<'a>(
    alloc: Global,
    locals: &BoogieNames,
    tokens: &'a [PlacedLexeme],
) -> BoogieRead<'a, Vec<BStmt>>
    ensures shorter { IfOk result (λ r. length r.1.now ≤ length tokens.now) }
    ensures reads { Parses block_of (g.rule (g.Else locals.now)) tokens.now result }
{
    let Some(rest) = eat_word(BoogieWord::Else, tokens) else {
        let none = Vec::new(alloc);
        return Ok((none, tokens));
    };
    block(alloc, locals, rest)
}

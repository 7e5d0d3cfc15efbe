// Statements without blocks.
ghost use Rattle.std.specs.Prelude.{◌≡◌, ◌<◌, [], length, IfOk};
ghost use Rattle.boogie_tree.specs.Whole.{expr_of, stmt_of};
ghost use Rattle.boogie_grammar.specs.Grammar as g;
ghost use Rattle.boogie_grammar.specs.Greedy.{Parses};
ghost use Rattle.boogie_grammar.specs.ReadView.{all_exprs_of};
ghost use Rattle.boogie_text.specs.StmtView.{no_bound, assuming, asserting};

use crate::exprs::{expr, exprs};
use boogie_grammar::eating::{BoogieRead, eat_sign, need_label, need_sign, need_word};
use boogie_grammar::scopes::{BoogieNames, ExprScope};
use boogie_grammar::{BSign, BoogieWord, PlacedLexeme};
use boogie_tree::{BExpr, BStmt};
use std::alloc::Global;
use vb_base::Ident;

/// No bound names.
fn none_bound<'a>() -> &'a [Ident]
    ensures { result.now ≡ [] }
{
    &[]
}

/// An expression that stands in no `forall`.
pub(crate) fn whole_expr<'a>(
    alloc: Global,
    locals: &BoogieNames,
    tokens: &'a [PlacedLexeme],
) -> BoogieRead<'a, BExpr>
    ensures shorter { IfOk result (λ r. length r.1.now < length tokens.now) }
    ensures reads { Parses expr_of (g.rule (g.Expr (no_bound locals.now))) tokens.now result }
{
    let others = BoogieNames::new(alloc, locals.key());
    let scope = ExprScope {
        locals,
        others: &others,
        bound: none_bound(),
    };
    let (inner, rest) = expr(alloc, scope, tokens)?;
    Ok((Box::into_inner(inner), rest))
}

/// Indices that stand in no `forall`, with the `]`.
fn whole_exprs<'a>(
    alloc: Global,
    locals: &BoogieNames,
    tokens: &'a [PlacedLexeme],
) -> BoogieRead<'a, Vec<BExpr>>
    ensures shorter { IfOk result (λ r. length r.1.now < length tokens.now) }
    ensures reads { Parses all_exprs_of (g.rule (g.Exprs (no_bound locals.now))) tokens.now result }
{
    let others = BoogieNames::new(alloc, locals.key());
    let scope = ExprScope {
        locals,
        others: &others,
        bound: none_bound(),
    };
    exprs(alloc, scope, tokens)
}

/// `bexpr ";"` after `assume`.
pub(crate) fn assumption<'a>(
    alloc: Global,
    locals: &BoogieNames,
    tokens: &'a [PlacedLexeme],
) -> BoogieRead<'a, BStmt>
    ensures shorter { IfOk result (λ r. length r.1.now < length tokens.now) }
    ensures reads { Parses stmt_of (assuming locals.now) tokens.now result }
{
    let (claim, rest) = whole_expr(alloc, locals, tokens)?;
    let (_, after) = need_sign(BSign::Semicolon, rest)?;
    Ok((BStmt::Assume(claim), after))
}

/// `"{" ":" "msg" string "}" bexpr ";"` after `assert`.
pub(crate) fn assertion<'a>(
    alloc: Global,
    locals: &BoogieNames,
    tokens: &'a [PlacedLexeme],
) -> BoogieRead<'a, BStmt>
    ensures shorter { IfOk result (λ r. length r.1.now < length tokens.now) }
    ensures reads { Parses stmt_of (asserting locals.now) tokens.now result }
{
    let (_, rest) = need_sign(BSign::OpenBrace, tokens)?;
    let (_, rest) = need_sign(BSign::Colon, rest)?;
    let (_, rest) = need_word(BoogieWord::Msg, rest)?;
    let (text, rest) = need_label(rest)?;
    let (_, rest) = need_sign(BSign::CloseBrace, rest)?;
    let (claim, rest) = whole_expr(alloc, locals, rest)?;
    let (_, after) = need_sign(BSign::Semicolon, rest)?;
    Ok((BStmt::Assert(text, claim), after))
}

/// `":=" bexpr ";"`, or this after indices, behind the name of a variable.
pub(crate) fn assignment<'a>(
    alloc: Global,
    locals: &BoogieNames,
    i: usize,
    tokens: &'a [PlacedLexeme],
) -> BoogieRead<'a, BStmt>
    ensures shorter { IfOk result (λ r. length r.1.now < length tokens.now) }
    ensures reads { Parses stmt_of (g.assignment locals.now i) tokens.now result }
{
    if let Some(rest) = eat_sign(BSign::OpenBracket, tokens) {
        let (indices, rest) = whole_exprs(alloc, locals, rest)?;
        let (_, rest) = need_sign(BSign::Assign, rest)?;
        let (value, rest) = whole_expr(alloc, locals, rest)?;
        let (_, after) = need_sign(BSign::Semicolon, rest)?;
        return Ok((BStmt::Put(i, indices, value), after));
    }
    let (_, rest) = need_sign(BSign::Assign, tokens)?;
    let (value, rest) = whole_expr(alloc, locals, rest)?;
    let (_, after) = need_sign(BSign::Semicolon, rest)?;
    Ok((BStmt::Assign(i, value), after))
}

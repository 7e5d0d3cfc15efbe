// Expressions.
ghost use Rattle.std.specs.Prelude.{◌≡◌, ◌<◌, ◌≤◌, [], length, IfOk};
ghost use Rattle.boogie_grammar.specs.Grammar as g;
ghost use Rattle.boogie_grammar.specs.Greedy.{Parses};
ghost use Rattle.boogie_grammar.specs.ReadView.{scope_of, boxed_of, all_exprs_of, wrap_of, closing, chosen, quantifying};

use crate::bounds::{binders, bound_rest, eat_bound};
use crate::builds::{at, wrap};
use boogie_grammar::eating::{BoogieRead, eat_sign, eat_word, need_operator, need_sign, need_word};
use boogie_grammar::leaves::{Wrap, eat_forall, eat_leaf, eat_variable, eat_wrap};
use boogie_grammar::scopes::{BoogieNames, ExprScope};
use boogie_grammar::{BSign, BoogieWord, PlacedLexeme};
use boogie_tree::BExpr;
use std::alloc::Global;
use vb_base::{boxed, pushed};

/// An expression.
#[cycle(expressions)]
pub fn expr<'a>(
    alloc: Global,
    scope: ExprScope<'_>,
    tokens: &'a [PlacedLexeme],
) -> BoogieRead<'a, Box<BExpr>>
    ensures shorter { IfOk result (λ r. length r.1.now < length tokens.now) }
    ensures reads { Parses boxed_of (g.rule (g.Expr (scope_of scope.entry))) tokens.now result }
{
    if let Some((leaf, rest)) = eat_leaf(tokens) {
        let whole = boxed(alloc, leaf)?;
        return Ok((whole, rest));
    }
    if let Some((form, rest)) = eat_wrap(tokens) {
        return wrapped(alloc, scope, form, rest);
    }
    if let Some(rest) = eat_word(BoogieWord::SPair, tokens) {
        return paired(alloc, scope, rest);
    }
    if let Some((i, rest)) = eat_variable(scope.locals, tokens) {
        return named(alloc, scope, i, rest);
    }
    in_parens(alloc, scope, tokens)
}

/// `"(" bexpr ")"` after the word of a form.
#[cycle(expressions)]
fn wrapped<'a>(
    alloc: Global,
    scope: ExprScope<'_>,
    form: Wrap,
    tokens: &'a [PlacedLexeme],
) -> BoogieRead<'a, Box<BExpr>>
    ensures shorter { IfOk result (λ r. length r.1.now < length tokens.now) }
    ensures reads { Parses boxed_of (g.wrapped (scope_of scope.entry) (wrap_of form)) tokens.now result }
{
    let (_, rest) = need_sign(BSign::OpenParen, tokens)?;
    closed(alloc, scope, form, rest)
}

/// `bexpr ")"`, of which a form is made.
#[cycle(expressions)]
fn closed<'a>(
    alloc: Global,
    scope: ExprScope<'_>,
    form: Wrap,
    tokens: &'a [PlacedLexeme],
) -> BoogieRead<'a, Box<BExpr>>
    ensures shorter { IfOk result (λ r. length r.1.now < length tokens.now) }
    ensures reads { Parses boxed_of (closing (scope_of scope.entry) (wrap_of form)) tokens.now result }
{
    let (inner, rest) = expr(alloc, scope, tokens)?;
    let (_, after) = need_sign(BSign::CloseParen, rest)?;
    let whole = wrap(alloc, form, inner)?;
    Ok((whole, after))
}

/// `"(" bexpr "," bexpr ")"` after `sPair`.
#[cycle(expressions)]
fn paired<'a>(
    alloc: Global,
    scope: ExprScope<'_>,
    tokens: &'a [PlacedLexeme],
) -> BoogieRead<'a, Box<BExpr>>
    ensures shorter { IfOk result (λ r. length r.1.now < length tokens.now) }
    ensures reads { Parses boxed_of (g.paired (scope_of scope.entry)) tokens.now result }
{
    let (_, rest) = need_sign(BSign::OpenParen, tokens)?;
    let (first, rest) = expr(alloc, scope, rest)?;
    let (_, after) = need_sign(BSign::Comma, rest)?;
    let (second, rest) = expr(alloc, scope, after)?;
    let (_, after) = need_sign(BSign::CloseParen, rest)?;
    let whole = boxed(alloc, BExpr::Pair(first, second))?;
    Ok((whole, after))
}

/// A variable, or a map with its indices, after its name.
#[cycle(expressions)]
fn named<'a>(
    alloc: Global,
    scope: ExprScope<'_>,
    i: usize,
    tokens: &'a [PlacedLexeme],
) -> BoogieRead<'a, Box<BExpr>>
    ensures shorter { IfOk result (λ r. length r.1.now ≤ length tokens.now) }
    ensures reads { Parses boxed_of (g.named (scope_of scope.entry) i) tokens.now result }
{
    let Some(rest) = eat_sign(BSign::OpenBracket, tokens) else {
        let whole = boxed(alloc, BExpr::Var(i))?;
        return Ok((whole, tokens));
    };
    indices(alloc, scope, i, rest)
}

/// The bound names or other indices, after a name and `[`, with the `]`.
#[cycle(expressions)]
fn indices<'a>(
    alloc: Global,
    scope: ExprScope<'_>,
    i: usize,
    tokens: &'a [PlacedLexeme],
) -> BoogieRead<'a, Box<BExpr>>
    ensures shorter { IfOk result (λ r. length r.1.now < length tokens.now) }
    ensures reads { Parses boxed_of (g.rule (g.Indices (scope_of scope.entry) i)) tokens.now result }
{
    if let Some((others, rest)) = eat_bound(scope, tokens) {
        let (_, after) = bound_rest(others, rest)?;
        let whole = boxed(alloc, BExpr::AtBound(i))?;
        return Ok((whole, after));
    }
    let (all, after) = exprs(alloc, scope, tokens)?;
    let whole = at(alloc, i, all)?;
    Ok((whole, after))
}

/// `bexpr { "," bexpr } "]"`
#[cycle(expressions)]
pub fn exprs<'a>(
    alloc: Global,
    scope: ExprScope<'_>,
    tokens: &'a [PlacedLexeme],
) -> BoogieRead<'a, Vec<BExpr>>
    ensures shorter { IfOk result (λ r. length r.1.now < length tokens.now) }
    ensures reads { Parses all_exprs_of (g.rule (g.Exprs (scope_of scope.entry))) tokens.now result }
{
    let (first, mut rest) = expr(alloc, scope, tokens)?;
    let mut all = pushed(Vec::new(alloc), Box::into_inner(first))?;
    while let Some(after) = eat_sign(BSign::Comma, rest) {
        let (next, after) = expr(alloc, scope, after)?;
        all = pushed(all, Box::into_inner(next))?;
        rest = after;
    }
    let (_, after) = need_sign(BSign::CloseBracket, rest)?;
    Ok((all, after))
}

/// A form in parentheses.
#[cycle(expressions)]
fn in_parens<'a>(
    alloc: Global,
    scope: ExprScope<'_>,
    tokens: &'a [PlacedLexeme],
) -> BoogieRead<'a, Box<BExpr>>
    ensures shorter { IfOk result (λ r. length r.1.now < length tokens.now) }
    ensures reads { Parses boxed_of (g.in_parens (scope_of scope.entry)) tokens.now result }
{
    let (_, rest) = need_sign(BSign::OpenParen, tokens)?;
    inside(alloc, scope, rest)
}

/// What follows a `(`, with its `)`.
#[cycle(expressions)]
fn inside<'a>(
    alloc: Global,
    scope: ExprScope<'_>,
    tokens: &'a [PlacedLexeme],
) -> BoogieRead<'a, Box<BExpr>>
    ensures shorter { IfOk result (λ r. length r.1.now < length tokens.now) }
    ensures reads { Parses boxed_of (g.rule (g.InParens (scope_of scope.entry))) tokens.now result }
{
    if let Some(rest) = eat_sign(BSign::Minus, tokens) {
        return closed(alloc, scope, Wrap::Neg, rest);
    }
    if let Some(rest) = eat_sign(BSign::Not, tokens) {
        return closed(alloc, scope, Wrap::Not, rest);
    }
    if let Some(rest) = eat_word(BoogieWord::If, tokens) {
        return choice(alloc, scope, rest);
    }
    if let Some(rest) = eat_forall(scope, tokens) {
        return quantified(alloc, scope, rest);
    }
    binary(alloc, scope, tokens)
}

/// `bexpr "then" bexpr "else" bexpr ")"` after `if`.
#[cycle(expressions)]
fn choice<'a>(
    alloc: Global,
    scope: ExprScope<'_>,
    tokens: &'a [PlacedLexeme],
) -> BoogieRead<'a, Box<BExpr>>
    ensures shorter { IfOk result (λ r. length r.1.now < length tokens.now) }
    ensures reads { Parses boxed_of (chosen (scope_of scope.entry)) tokens.now result }
{
    let (condition, rest) = expr(alloc, scope, tokens)?;
    let (_, after) = need_word(BoogieWord::Then, rest)?;
    let (first, rest) = expr(alloc, scope, after)?;
    let (_, after) = need_word(BoogieWord::Else, rest)?;
    let (second, rest) = expr(alloc, scope, after)?;
    let (_, after) = need_sign(BSign::CloseParen, rest)?;
    let whole = boxed(alloc, BExpr::If(condition, first, second))?;
    Ok((whole, after))
}

/// `bexpr bop bexpr ")"`
#[cycle(expressions)]
fn binary<'a>(
    alloc: Global,
    scope: ExprScope<'_>,
    tokens: &'a [PlacedLexeme],
) -> BoogieRead<'a, Box<BExpr>>
    ensures shorter { IfOk result (λ r. length r.1.now < length tokens.now) }
    ensures reads { Parses boxed_of (g.binary (scope_of scope.entry)) tokens.now result }
{
    let (left, rest) = expr(alloc, scope, tokens)?;
    let (op, after) = need_operator(rest)?;
    let (right, rest) = expr(alloc, scope, after)?;
    let (_, after) = need_sign(BSign::CloseParen, rest)?;
    let whole = boxed(alloc, BExpr::Bin(op, left, right))?;
    Ok((whole, after))
}

/// What a `forall` binds and says, after the word, with its `)`.
#[cycle(expressions)]
fn quantified<'a>(
    alloc: Global,
    scope: ExprScope<'_>,
    tokens: &'a [PlacedLexeme],
) -> BoogieRead<'a, Box<BExpr>>
    ensures shorter { IfOk result (λ r. length r.1.now < length tokens.now) }
    ensures reads { Parses boxed_of (quantifying (scope_of scope.entry)) tokens.now result }
{
    let mut bound = BoogieNames::new(alloc, scope.locals.key());
    binding(alloc, scope, &mut bound, tokens)
}

/// The same, where the bound names come into an empty table.
#[cycle(expressions)]
fn binding<'a>(
    alloc: Global,
    scope: ExprScope<'_>,
    bound: &mut BoogieNames,
    tokens: &'a [PlacedLexeme],
) -> BoogieRead<'a, Box<BExpr>>
    requires { bound.now ≡ [] }
    ensures shorter { IfOk result (λ r. length r.1.now < length tokens.now) }
    ensures reads { Parses boxed_of (quantifying (scope_of scope.entry)) tokens.now result }
{
    let (types, rest) = binders(alloc, scope, bound, tokens)?;
    let (_, after) = need_sign(BSign::Bounds, rest)?;
    let under = ExprScope {
        locals: scope.locals,
        others: scope.others,
        bound: bound.all(),
    };
    let (inner, rest) = expr(alloc, under, after)?;
    let (_, after) = need_sign(BSign::CloseParen, rest)?;
    let whole = boxed(alloc, BExpr::Forall(types, inner))?;
    Ok((whole, after))
}

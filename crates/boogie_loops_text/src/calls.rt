// Calls of procedures.
ghost use Rattle.std.specs.Prelude.{◌≡◌, ◌<◌, ◌∷◌, [], ℕ, List, length, true, IfOk};
ghost use Rattle.boogie_grammar.specs.ReadView.{all_exprs_of};
ghost use Rattle.boogie_grammar.specs.Tests.{some_free};
ghost use Rattle.boogie_loops.specs.View.{wstmt_of};
ghost use Rattle.boogie_loops_grammar.specs.Grammar as g;
ghost use Rattle.boogie_loops_text.specs.Greedy.{Parses};
ghost use Rattle.boogie_loops_text.specs.View.{numbers_of, giving, call_of};

use crate::parts::whole_expr;
use crate::reserved::{Within, new_name};
use crate::simple::variable;
use boogie_grammar::eating::{BoogieRead, eat_sign, need_sign};
use boogie_grammar::leaves::eat_variable;
use boogie_grammar::scopes::BoogieNames;
use boogie_grammar::{BSign, PlacedLexeme};
use boogie_loops::WStmt;
use boogie_tree::BExpr;
use std::alloc::Global;
use vb_base::pushed;

/// `bexpr { "," bexpr } ")"`
fn more_arguments<'a>(within: Within<'_>, tokens: &'a [PlacedLexeme]) -> BoogieRead<'a, Vec<BExpr>>
    ensures shorter { IfOk result (λ r. length r.1.now < length tokens.now) }
    ensures reads { Parses all_exprs_of (g.rule (g.MoreArguments within.entry.locals.now [])) tokens.now result }
{
    let mut all = Vec::new(within.alloc);
    let mut rest = tokens;
    loop {
        let (next, after) = whole_expr(within, rest)?;
        all = pushed(all, next)?;
        let Some(more) = eat_sign(BSign::Comma, after) else {
            let (_, end) = need_sign(BSign::CloseParen, after)?;
            return Ok((all, end));
        };
        rest = more;
    }
}

/// `[ bexpr { "," bexpr } ] ")"`
fn arguments<'a>(within: Within<'_>, tokens: &'a [PlacedLexeme]) -> BoogieRead<'a, Vec<BExpr>>
    ensures shorter { IfOk result (λ r. length r.1.now < length tokens.now) }
    ensures reads { Parses all_exprs_of (g.rule (g.Arguments within.entry.locals.now)) tokens.now result }
{
    if let Some(rest) = eat_sign(BSign::CloseParen, tokens) {
        let none = Vec::new(within.alloc);
        return Ok((none, rest));
    }
    more_arguments(within, tokens)
}

/// The arguments of a call, with what follows them.
fn given<'a>(within: Within<'_>, tokens: &'a [PlacedLexeme]) -> BoogieRead<'a, Vec<BExpr>>
    ensures shorter { IfOk result (λ r. length r.1.now < length tokens.now) }
    ensures reads { (targets name : List ℕ) → Parses (call_of targets name) (giving within.entry.locals.now targets name) tokens.now result }
{
    let (all, rest) = arguments(within, tokens)?;
    let (_, after) = need_sign(BSign::Semicolon, rest)?;
    Ok((all, after))
}

/// The targets of a call, of which this is the first, with the `:=` behind them.
fn targets<'a>(
    alloc: Global,
    locals: &BoogieNames,
    first: usize,
    tokens: &'a [PlacedLexeme],
) -> BoogieRead<'a, Vec<usize>>
    requires { some_free locals.now ≡ true }
    ensures shorter { IfOk result (λ r. length r.1.now < length tokens.now) }
    ensures reads { Parses numbers_of (g.rule (g.Targets locals.now (first ∷ []))) tokens.now result }
{
    let mut all = pushed(Vec::new(alloc), first)?;
    let mut rest = tokens;
    while let Some(after) = eat_sign(BSign::Comma, rest) {
        let (next, after) = variable(locals, after)?;
        all = pushed(all, next)?;
        rest = after;
    }
    let (_, after) = need_sign(BSign::Assign, rest)?;
    Ok((all, after))
}

/// What follows a variable behind `call`: the arguments, or further targets and the call.
fn targeted<'a>(within: Within<'_>, i: usize, tokens: &'a [PlacedLexeme]) -> BoogieRead<'a, WStmt>
    requires free { some_free within.locals.now ≡ true }
    requires there { i < length within.locals.now }
    ensures shorter { IfOk result (λ r. length r.1.now < length tokens.now) }
    ensures reads { Parses wstmt_of (g.targeted within.entry.locals.now i) tokens.now result }
{
    if let Some(rest) = eat_sign(BSign::OpenParen, tokens) {
        let (arguments, rest) = given(within, rest)?;
        let name = within.locals.all()[i].copy()?;
        let none = Vec::new(within.alloc);
        return Ok((WStmt::Call(none, name, arguments), rest));
    }
    let (all, rest) = targets(within.alloc, within.locals, i, tokens)?;
    let none = BoogieNames::new(within.alloc, within.locals.key());
    let (name, rest) = new_name(within.alloc, &none, within.words, rest)?;
    let (_, rest) = need_sign(BSign::OpenParen, rest)?;
    let (arguments, rest) = given(within, rest)?;
    Ok((WStmt::Call(all, name, arguments), rest))
}

/// What follows `call`.
pub(crate) fn call<'a>(within: Within<'_>, tokens: &'a [PlacedLexeme]) -> BoogieRead<'a, WStmt>
    ensures shorter { IfOk result (λ r. length r.1.now < length tokens.now) }
    ensures reads { Parses wstmt_of (g.call within.entry.locals.now) tokens.now result }
{
    if let Some((i, rest)) = eat_variable(within.locals, tokens) {
        return targeted(within, i, rest);
    }
    let (name, rest) = new_name(within.alloc, within.locals, within.words, tokens)?;
    let (_, rest) = need_sign(BSign::OpenParen, rest)?;
    let (arguments, rest) = given(within, rest)?;
    let none = Vec::new(within.alloc);
    Ok((WStmt::Call(none, name, arguments), rest))
}

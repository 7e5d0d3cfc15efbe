// The parts of expressions that are told by their first token.
ghost use Rattle.std.specs.Prelude.{◌≡◌, ◌<◌, ℕ, true, length, IfOk, IfSome, MatchOption, Some};
ghost use Rattle.boogie_tree.specs.Whole.{expr_of};
ghost use Rattle.boogie_grammar.specs.ReadView.{ReadsLeaf, NoLeaf, ReadsWrap, NoWrap, ReadsVariable, NoVariable, ReadsForall, NoForall};

use crate::eating::{eat_number, eat_real, eat_word};
use crate::scopes::{BoogieNames, ExprScope, variable};
use crate::{BoogieWord, Lexeme, PlacedLexeme};
use boogie_tree::BExpr;

/// A form with one expression, in parentheses with what tells the form.
#[derive(Clone, Copy)]
pub enum Wrap {
    /// `real`
    Real,
    /// `sInt`
    Int,
    /// `sBool`
    Bool,
    /// `sRef`
    Ref,
    /// `sPerm`
    Perm,
    /// `-`
    Neg,
    /// `!`
    Not,
}

/// An expression of one token, if one is next, and the tokens after it.
pub fn eat_leaf(tokens: &[PlacedLexeme]) -> Option<(BExpr, &[PlacedLexeme])>
    ensures shorter { IfSome result (λ p. length p.1.now < length tokens.now) }
    ensures eats { MatchOption result (NoLeaf tokens.now) (λ p. ReadsLeaf tokens.now (expr_of p.0) p.1.now) }
{
    if let Some((n, rest)) = eat_number(tokens) {
        return Some((BExpr::Int(n), rest));
    }
    if let Some((n, rest)) = eat_real(tokens) {
        return Some((BExpr::Real(n), rest));
    }
    if let Some(rest) = eat_word(BoogieWord::True, tokens) {
        return Some((BExpr::Bool(true), rest));
    }
    if let Some(rest) = eat_word(BoogieWord::False, tokens) {
        return Some((BExpr::Bool(false), rest));
    }
    if let Some(rest) = eat_word(BoogieWord::Null, tokens) {
        return Some((BExpr::Null, rest));
    }
    let rest = eat_word(BoogieWord::SUnit, tokens)?;
    Some((BExpr::Unit, rest))
}

/// The word of a form with one expression in parentheses, if one is next, and the tokens after it.
pub fn eat_wrap(tokens: &[PlacedLexeme]) -> Option<(Wrap, &[PlacedLexeme])>
    ensures shorter { IfSome result (λ p. length p.1.now < length tokens.now) }
    ensures eats { MatchOption result (NoWrap tokens.now) (λ p. ReadsWrap tokens.now p.0 p.1.now) }
{
    if let Some(rest) = eat_word(BoogieWord::Real, tokens) {
        return Some((Wrap::Real, rest));
    }
    if let Some(rest) = eat_word(BoogieWord::SInt, tokens) {
        return Some((Wrap::Int, rest));
    }
    if let Some(rest) = eat_word(BoogieWord::SBool, tokens) {
        return Some((Wrap::Bool, rest));
    }
    if let Some(rest) = eat_word(BoogieWord::SRef, tokens) {
        return Some((Wrap::Ref, rest));
    }
    let rest = eat_word(BoogieWord::SPerm, tokens)?;
    Some((Wrap::Perm, rest))
}

/// The number of the next variable, if one is next, and the tokens after it.
pub fn eat_variable<'a>(
    names: &BoogieNames,
    tokens: &'a [PlacedLexeme],
) -> Option<(usize, &'a [PlacedLexeme])>
    ensures shorter { IfSome result (λ p. length p.1.now < length tokens.now) }
    ensures eats { MatchOption result (NoVariable names.now tokens.now) (λ p. ReadsVariable names.now tokens.now p.0 p.1.now) }
{
    let (first, rest) = tokens.split_first()?;
    match &first.tok {
        Lexeme::Name(name) => {
            let i = variable(names, name)?;
            Some((i, rest))
        }
        _ => None,
    }
}

/// The tokens after `forall`, if it is next and may stand here.
pub fn eat_forall<'a>(
    scope: ExprScope<'_>,
    tokens: &'a [PlacedLexeme],
) -> Option<&'a [PlacedLexeme]>
    ensures shorter { IfSome result (λ r. length r.now < length tokens.now) }
    ensures eats { MatchOption result (NoForall scope.entry.bound.now tokens.now) (λ r. ReadsForall scope.entry.bound.now tokens.now r.now) }
{
    match scope.bound.split_first() {
        Some(_) => None,
        None => eat_word(BoogieWord::Forall, tokens),
    }
}

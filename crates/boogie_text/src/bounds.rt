// What a `forall` binds, and where it is named.
ghost use Rattle.std.specs.Prelude.{◌≡◌, ◌<◌, [], length, IfOk, IfSome, MatchOption};
ghost use Rattle.boogie_grammar.specs.Grammar as g;
ghost use Rattle.boogie_grammar.specs.Greedy.{Parses};
ghost use Rattle.boogie_grammar.specs.ReadView.{scope_of, binding_of, ReadsBound, NoBound};

use boogie_grammar::eating::{
    BoogieRead, eat_given_name, eat_sign, need_given_name, need_key, need_sign,
};
use boogie_grammar::new_names::{bound_name, is_new};
use boogie_grammar::scopes::{BoogieNames, ExprScope};
use boogie_grammar::{BSign, PlacedLexeme};
use boogie_tree::BBase;
use std::alloc::Global;
use vb_base::{Ident, pushed};

/// Where the first bound name is next, as the first index: the other bound names, and the tokens after it.
pub(crate) fn eat_bound<'a, 'b>(
    scope: ExprScope<'b>,
    tokens: &'a [PlacedLexeme],
) -> Option<(&'b [Ident], &'a [PlacedLexeme])>
    ensures shorter { IfSome result (λ r. length r.1.now < length tokens.now) }
    ensures eats { MatchOption result (NoBound (scope_of scope.entry) tokens.now) (λ r. ReadsBound (scope_of scope.entry) tokens.now r.0.now r.1.now) }
{
    let (first, others) = scope.bound.split_first()?;
    if !is_new(scope.locals, first) {
        return None;
    }
    let rest = eat_given_name(first, tokens)?;
    Some((others, rest))
}

/// The tokens after these names, each behind a `,`, and a `]`.
pub(crate) fn bound_rest<'a>(names: &[Ident], tokens: &'a [PlacedLexeme]) -> BoogieRead<'a, ()>
    ensures shorter { IfOk result (λ r. length r.1.now < length tokens.now) }
    ensures reads { Parses (λ u. u) (g.rule (g.BoundRest names.now)) tokens.now result }
{
    let mut left = names;
    let mut rest = tokens;
    while let Some((name, others)) = left.split_first() {
        let (_, after) = need_sign(BSign::Comma, rest)?;
        let (_, after) = need_given_name(name, after)?;
        left = others;
        rest = after;
    }
    let (_, after) = need_sign(BSign::CloseBracket, rest)?;
    Ok(((), after))
}

/// The types of what a `forall` binds. The names come into the table.
pub(crate) fn binders<'a>(
    alloc: Global,
    scope: ExprScope<'_>,
    bound: &mut BoogieNames,
    tokens: &'a [PlacedLexeme],
) -> BoogieRead<'a, Vec<BBase>>
    requires { bound.now ≡ [] }
    ensures shorter { IfOk result (λ r. length r.1.now < length tokens.now) }
    ensures reads { Parses (binding_of bound.new) (g.rule (g.Binders (scope_of scope.entry) g.no_binding)) tokens.now result }
{
    let mut types = Vec::new(alloc);
    let mut rest = tokens;
    loop {
        let (name, after) = bound_name(scope, bound, rest)?;
        let (_, after) = need_sign(BSign::Colon, after)?;
        let (ty, after) = need_key(after)?;
        bound.add(name)?;
        types = pushed(types, ty)?;
        let Some(next) = eat_sign(BSign::Comma, after) else {
            return Ok((types, after));
        };
        rest = next;
    }
}

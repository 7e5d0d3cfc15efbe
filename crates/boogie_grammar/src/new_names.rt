// Names that a declaration may have.
ghost use Rattle.std.specs.Prelude.{◌≡◌, ◌<◌, ◌++◌, length, IfOk};
ghost use Rattle.boogie_grammar.specs.Greedy.{Takes};
ghost use Rattle.boogie_grammar.specs.Grammar.{taken_by};
ghost use Rattle.boogie_grammar.specs.ReadView.{is_new_name, scope_of};
ghost use Rattle.boogie_grammar.specs.Tests.{a_new_name};

use crate::eating::BoogieRead;
use crate::scopes::{BoogieNames, ExprScope, is_reserved};
use crate::{Lexeme, PlacedLexeme};
use grammar::Stop;
use vb_base::Ident;

/// Whether a name is not reserved and none of these.
pub fn is_new(names: &BoogieNames, name: &Ident) -> bool
    ensures { result ≡ is_new_name names.now name.now }
{
    !is_reserved(name.bytes()) && !names.has(name)
}

/// A copy of the next name, which must be next, not reserved, and none of these.
pub fn new_name<'a>(taken: &BoogieNames, tokens: &'a [PlacedLexeme]) -> BoogieRead<'a, Ident>
    ensures shorter { IfOk result (λ p. length p.1.now < length tokens.now) }
    ensures takes { Takes (a_new_name taken.now) tokens.now result }
{
    match tokens.split_first() {
        Some((first, rest)) => match &first.tok {
            Lexeme::Name(name) if is_new(taken, name) => {
                let name = name.copy()?;
                Ok((name, rest))
            }
            _ => Err(Stop::Before(tokens)),
        },
        None => Err(Stop::Before(tokens)),
    }
}

/// Whether a name is not reserved, none of the locals and of the further names.
fn is_free(scope: ExprScope<'_>, name: &Ident) -> bool
    ensures { result ≡ is_new_name (scope.entry.locals.now ++ scope.entry.others.now) name.now }
{
    is_new(scope.locals, name) && !scope.others.has(name)
}

/// Whether a name is so, and not yet bound.
fn is_unbound(scope: ExprScope<'_>, bound: &BoogieNames, name: &Ident) -> bool
    ensures { result ≡ is_new_name (taken_by (scope_of scope.entry) bound.now) name.now }
{
    is_free(scope, name) && !bound.has(name)
}

/// A copy of the next name, which must be next, not reserved, none of the locals and of the further names, and not yet bound.
pub fn bound_name<'a>(
    scope: ExprScope<'_>,
    bound: &BoogieNames,
    tokens: &'a [PlacedLexeme],
) -> BoogieRead<'a, Ident>
    ensures shorter { IfOk result (λ p. length p.1.now < length tokens.now) }
    ensures takes { Takes (a_new_name (taken_by (scope_of scope.entry) bound.now)) tokens.now result }
{
    match tokens.split_first() {
        Some((first, rest)) => match &first.tok {
            Lexeme::Name(name) if is_unbound(scope, bound, name) => {
                let name = name.copy()?;
                Ok((name, rest))
            }
            _ => Err(Stop::Before(tokens)),
        },
        None => Err(Stop::Before(tokens)),
    }
}

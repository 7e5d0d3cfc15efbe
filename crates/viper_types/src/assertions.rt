// The typing of assertions: what a term is, or the first rule that it breaks.
ghost use Rattle.std.specs.Prelude.{map};
ghost use Rattle.viper_core.specs.View.{amt_of, assertion_of, assertions_of};
ghost use Rattle.viper_syntax.specs.View.{term_of, terms_of};
ghost use Rattle.viper_scope.specs.Answers.{Answers, context_of};
ghost use Rattle.viper_types.specs.Answers.{lent_amount_of};
ghost use Rattle.viper_types.specs.Stepping.{asserting_all};
ghost use Rattle.viper_types.specs.Typing as j;

use crate::expressions::{allows_permission_forms, arguments, expected, place, write};
use std::alloc::Global;
use vb_base::{Ident, Pos, boxed, kept};
use vb_value::Ty;
use viper_core::{Amt, Assertion};
use viper_scope::{Context, Rule, RuleFault, VariableScope, start};
use viper_syntax::{Sign, Term, Word};

/// The amount of an accessibility predicate.
fn amount(
    alloc: Global,
    context: &Context,
    scope: &VariableScope,
    amount: Option<&Term>,
) -> Result<Amt, RuleFault>
    ensures { Answers amt_of (j.amount (context_of context.now) scope.now (lent_amount_of amount.entry)) result }
{
    match amount {
        None => Ok(Amt::Is(write())),
        Some(Term::Constant(Word::Wildcard, at)) => {
            if !allows_permission_forms(context.part) {
                return Err(RuleFault::Broken(*at, Rule::MisplacedWildcard));
            }
            Ok(Amt::Wildcard)
        }
        Some(term) => Ok(Amt::Is(expected(alloc, context, scope, Ty::Perm, term)?)),
    }
}

/// An instance of a predicate, at its name.
fn instance(
    alloc: Global,
    context: &Context,
    scope: &VariableScope,
    name: &Ident,
    args: &[Term],
    share: Option<&Term>,
    at: Pos,
) -> Result<Assertion, RuleFault>
    ensures { Answers assertion_of (j.instance (context_of context.now) scope.now name.now (terms_of args.now) (lent_amount_of share.entry) at) result }
{
    let Some((predicate, signature)) = context.world.predicate(name) else {
        return Err(RuleFault::Broken(at, Rule::UnknownName));
    };
    let args = arguments(alloc, context, scope, args, &signature.params, at)?;
    let share = amount(alloc, context, scope, share)?;
    Ok(Assertion::Inst(predicate, args, share, at))
}

/// An accessibility predicate of what stands in it.
fn access(
    alloc: Global,
    context: &Context,
    scope: &VariableScope,
    term: &Term,
    share: Option<&Term>,
    at: Pos,
) -> Result<Assertion, RuleFault>
    ensures { Answers assertion_of (j.access (context_of context.now) scope.now (term_of term.now) (lent_amount_of share.entry) at) result }
{
    match term {
        Term::Field(a, name, name_at) => {
            let found = place(alloc, context, scope, a, name, *name_at)?;
            let share = amount(alloc, context, scope, share);
            let (share, found) = kept(share, found)?;
            Ok(Assertion::Acc(found.receiver, found.field, share, *name_at))
        }
        Term::Inst(name, args, name_at) => {
            instance(alloc, context, scope, name, args, share, *name_at)
        }
        _ => Err(RuleFault::Broken(at, Rule::NoResource)),
    }
}

/// An expression as an assertion.
fn fact(
    alloc: Global,
    context: &Context,
    scope: &VariableScope,
    term: &Term,
) -> Result<Assertion, RuleFault>
    ensures { Answers assertion_of (j.fact (context_of context.now) scope.now (term_of term.now)) result }
{
    let e = expected(alloc, context, scope, Ty::Bool, term)?;
    Ok(Assertion::Fact(e, start(term)))
}

/// A term as an assertion, in a box.
#[cycle(assertion)]
fn boxed_assertion(
    alloc: Global,
    context: &Context,
    scope: &VariableScope,
    term: &Term,
) -> Result<Box<Assertion>, RuleFault>
    ensures { Answers (λ a. assertion_of a.value) (j.asserting (context_of context.now) scope.now (term_of term.now)) result }
{
    Ok(boxed(alloc, assertion(alloc, context, scope, term)?)?)
}

/// A term as an assertion.
#[cycle(assertion)]
pub(crate) fn assertion(
    alloc: Global,
    context: &Context,
    scope: &VariableScope,
    term: &Term,
) -> Result<Assertion, RuleFault>
    ensures { Answers assertion_of (j.asserting (context_of context.now) scope.now (term_of term.now)) result }
{
    match term {
        Term::Binary(Sign::And, a, b, _) => {
            let left = boxed_assertion(alloc, context, scope, a)?;
            let right = boxed_assertion(alloc, context, scope, b)?;
            Ok(Assertion::And(left, right))
        }
        Term::Binary(Sign::Implies, a, b, _) => {
            let condition = expected(alloc, context, scope, Ty::Bool, a)?;
            let implied = boxed_assertion(alloc, context, scope, b);
            let (implied, condition) = kept(implied, condition)?;
            Ok(Assertion::Implies(condition, implied))
        }
        Term::Choose(a, b, c, _) => {
            let condition = expected(alloc, context, scope, Ty::Bool, a)?;
            let first = boxed_assertion(alloc, context, scope, b);
            let (first, condition) = kept(first, condition)?;
            let second = boxed_assertion(alloc, context, scope, c);
            let (second, (first, condition)) = kept(second, (first, condition))?;
            Ok(Assertion::Choose(condition, first, second))
        }
        Term::Acc(a, share, at) => access(alloc, context, scope, a, share.as_deref(), *at),
        Term::Inst(name, args, at) => instance(alloc, context, scope, name, args, None, *at),
        _ => fact(alloc, context, scope, term),
    }
}

/// Terms as assertions, in order.
pub(crate) fn assertions(
    alloc: Global,
    context: &Context,
    scope: &VariableScope,
    terms: &[Term],
) -> Result<Vec<Assertion>, RuleFault>
    ensures { Answers (λ v. assertions_of v.items) (asserting_all (context_of context.now) scope.now (map term_of terms.now)) result }
{
    let mut typed = Vec::with_capacity(alloc, terms.len())?;
    for term in terms {
        let next = assertion(alloc, context, scope, term)?;
        typed.push(next)?;
    }
    Ok(typed)
}

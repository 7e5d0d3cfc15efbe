// Typed arguments against their parameters.
ghost use Rattle.std.specs.Prelude.{◌≡◌, map};
ghost use Rattle.viper_syntax.specs.View.{term_of, terms_of};
ghost use Rattle.viper_scope.specs.Answers.{Answers, typing_of, typings_of, argument_exprs_of};
ghost use Rattle.viper_scope.specs.Arguments as a;
ghost use Rattle.viper_scope.specs.Outcome.{Found};

use crate::rules::{Rule, RuleFault};
use std::alloc::Global;
use vb_base::Pos;
use vb_value::Ty;
use viper_core::Expr;
use viper_syntax::Term;

/// The leftmost token of a term, parentheses not counted.
pub fn start(term: &Term) -> Pos
    ensures { result ≡ a.start (term_of term.now) }
{
    match term {
        Term::Name(_, at)
        | Term::Number(_, at)
        | Term::Constant(_, at)
        | Term::Unary(_, _, at)
        | Term::Old(_, at)
        | Term::Acc(_, _, at)
        | Term::Inst(_, _, at) => *at,
        Term::Unfolding(unfolding) => unfolding.at,
        Term::Binary(_, a, _, _) | Term::Choose(a, _, _, _) | Term::Field(a, _, _) => start(a),
    }
}

/// Whether there are as many of one as of the other.
pub fn as_many<X, Y>(xs: &[X], ys: &[Y]) -> bool
    ensures { result ≡ a.as_many xs.now ys.now }
{
    xs.len() == ys.len()
}

/// The start of the first argument that is not of its parameter's type.
pub fn misfit(args: &[Term], typed: &[(Expr, Ty)], params: &[Ty]) -> Option<Pos>
    ensures { result ≡ a.misfit (terms_of args.now) (map typing_of typed.now) params.now }
{
    for (i, arg) in args.iter().enumerate() {
        if typed.get(i)?.1 != *params.get(i)? {
            return Some(start(arg));
        }
    }
    None
}

/// The expressions of typed arguments.
pub fn exprs_in(alloc: Global, typed: Vec<(Expr, Ty)>) -> Result<Vec<Expr>, RuleFault>
    ensures { Answers argument_exprs_of (Found (a.exprs_in (typings_of typed))) result }
{
    Ok(typed.into_iter().map(|(e, _)| e).collect(alloc)?)
}

/// Typed arguments for these parameters.
pub fn fitted(
    alloc: Global,
    args: &[Term],
    typed: Vec<(Expr, Ty)>,
    params: &[Ty],
    at: Pos,
) -> Result<Vec<Expr>, RuleFault>
    ensures { Answers argument_exprs_of (a.fitted (terms_of args.now) params.now at (typings_of typed)) result }
{
    if !as_many(&typed, params) {
        return Err(RuleFault::Broken(at, Rule::ArgumentCount));
    }
    if let Some(place) = misfit(args, &typed, params) {
        return Err(RuleFault::Broken(place, Rule::WrongType));
    }
    exprs_in(alloc, typed)
}

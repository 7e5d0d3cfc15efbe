// What numbers are at values of the terms that they are sums of.
ghost use Rattle.std.specs.Prelude.{◌≤◌};

use search_base::{Fuel, SearchStop, TermId};
use search_rational::Rational;
use search_rows::Point;
use search_state::Prover;
use search_terms::TermOp;

/// The value of a term, 0 where it has none.
pub fn value_at(point: &Point, n: TermId) -> Rational {
    point.get(&n).copied().unwrap_or(Rational::ZERO)
}

/// What a number is at values of the terms that it is a sum of.
pub fn number_at(
    prover: &mut Prover,
    n: TermId,
    point: &Point,
    fuel: &mut Fuel,
) -> Result<Rational, SearchStop>
    ensures { fuel.new.left ≤ fuel.old.left }
{
    let form = prover.terms.form(n, fuel)?;
    fuel.take(form.len())?;
    let mut found = Rational::ZERO;
    for (term, by) in form {
        let value = if term.is_none() {
            Rational::ONE
        } else {
            value_at(point, *term)
        };
        found = found.plus(value.times(*by)?)?;
    }
    Ok(found)
}

/// A product, quotient or remainder. By 0 it is 0.
pub fn operation(op: TermOp, a: Rational, b: Rational) -> Result<Rational, SearchStop> {
    match op {
        TermOp::Mul => a.times(b),
        _ if b.is_zero() => Ok(Rational::ZERO),
        TermOp::Div => a.over(b),
        TermOp::IntDiv => Ok(Rational::whole(quotient(a, b)?)),
        TermOp::Mod => a.minus(b.times(Rational::whole(quotient(a, b)?))?),
        _ => Ok(Rational::ZERO),
    }
}

/// The Euclidean quotient of whole numbers, the second one not 0.
fn quotient(a: Rational, b: Rational) -> Result<i128, SearchStop> {
    a.numerator()
        .checked_div_euclid(b.numerator())
        .ok_or(SearchStop::Overflow)
}

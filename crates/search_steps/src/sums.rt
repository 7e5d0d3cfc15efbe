// The step for a sum of comparisons that is a contradiction.
ghost use Rattle.std.specs.Prelude.{◌≤◌};

use crate::rules::StepRule;
use crate::steps::Steps;
use search_base::{Fuel, SearchStop, SignedTerm, StepId, TermId};
use search_rational::{Rational, common_multiple};
use search_terms::{TermOp, Terms};
use std::alloc::Global;
use std::collections::BTreeMap;

/// A sum of terms, in which factors may be 0.
type Total = BTreeMap<TermId, Rational>;

/// The step whose literals have these weights: what its terms are is added to the sum until none is left. `Exhausted` where one is
/// left, `Overflow` where a weight leaves 63 bits.
pub fn sum_step(
    alloc: Global,
    terms: &Terms,
    steps: &mut Steps,
    rows: &[(SignedTerm, Rational)],
    fuel: &mut Fuel,
) -> Result<StepId, SearchStop>
    ensures { fuel.new.left ≤ fuel.old.left }
{
    let total = total(alloc, terms, rows)?;
    let meanings = meanings(alloc, terms, total, fuel)?;
    let (mut weights, mut literals) = (Vec::new(alloc), Vec::new(alloc));
    for (literal, weight) in rows {
        if !weight.is_zero() {
            weights.push((*literal, *weight))?;
            literals.push(*literal)?;
        }
    }
    let common = common_denominator(common_denominator(1, &weights)?, &meanings)?;
    let mut words = Vec::new(alloc);
    put_all(&mut words, &weights, common)?;
    words.push(0)?;
    put_all(&mut words, &meanings, common)?;
    steps.add_words(&literals, StepRule::Sum, &words)
}

/// Adds so many times a term.
fn add(total: &mut Total, n: TermId, by: Rational) -> Result<(), SearchStop> {
    let now = total.get(&n).copied().unwrap_or_default();
    total.insert(n, now.plus(by)?)?;
    Ok(())
}

/// The sum of the sides of comparisons, each so many times.
fn total(
    alloc: Global,
    terms: &Terms,
    rows: &[(SignedTerm, Rational)],
) -> Result<Total, SearchStop> {
    let mut found = BTreeMap::new(alloc);
    for (literal, weight) in rows {
        let n = literal.term();
        let is_turned = literal.is_plain() && terms.op(n) == TermOp::Le;
        let by = if is_turned {
            weight.negated()?
        } else {
            *weight
        };
        add(&mut found, terms.part(n, 0).term(), by)?;
        add(&mut found, terms.part(n, 1).term(), by.negated()?)?;
    }
    Ok(found)
}

/// How often what each term is has to be added so that a sum of them is a number. Parts stand before their whole, so the greatest
/// term is replaced first.
fn meanings(
    alloc: Global,
    terms: &Terms,
    sum: Total,
    fuel: &mut Fuel,
) -> Result<Vec<(SignedTerm, Rational)>, SearchStop>
    ensures { fuel.new.left ≤ fuel.old.left }
{
    let mut total = sum;
    let mut found = Vec::new(alloc);
    while let Some((n, by)) = total.pop_last() {
        fuel.take(1)?;
        if by.is_zero() {
            continue;
        }
        found.push((n.literal(), by.negated()?.over(scale(terms, n))?))?;
        let meaning = terms.meaning(n);
        if meaning.own {
            return Err(SearchStop::Exhausted);
        }
        for (part, factor) in meaning.parts.iter().flatten() {
            add(&mut total, *part, by.times(*factor)?)?;
        }
    }
    Ok(found)
}

/// A multiple of a number by which weights are whole.
fn common_denominator(first: i128, weights: &[(SignedTerm, Rational)]) -> Result<i128, SearchStop> {
    let mut found = first;
    for (_, weight) in weights {
        found = common_multiple(found, weight.denominator()).ok_or(SearchStop::Overflow)?;
    }
    Ok(found)
}

/// Puts weights, each times a number that makes them whole, and what they are of.
fn put_all(
    words: &mut Vec<i64>,
    weights: &[(SignedTerm, Rational)],
    common: i128,
) -> Result<(), SearchStop> {
    for (it, weight) in weights {
        let whole = weight.times(Rational::whole(common))?;
        words.push(
            i64::try_from(whole.numerator())
                .ok()
                .ok_or(SearchStop::Overflow)?,
        )?;
        words.push(it.word())?;
    }
    Ok(())
}

/// The factor of a term where a step says what it is.
fn scale(terms: &Terms, n: TermId) -> Rational {
    let a = terms.value(terms.part(n, 0).term());
    let b = terms.value(terms.part(n, 1).term());
    match (terms.op(n), a.or(b), b) {
        (TermOp::Mul, Some(it), _) => Rational::whole(it.denominator()),
        (TermOp::Div, _, Some(by)) if !by.is_zero() => Rational::whole(by.numerator()),
        _ => Rational::ONE,
    }
}

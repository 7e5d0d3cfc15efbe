// What contradicts a comparison.
ghost use Rattle.std.specs.Prelude.{◌≤◌};

use crate::comparing::comparison;
use crate::sums::{refuted, sum_up};
use search_base::{Found, Fuel, SearchStop, SignedTerm, StepId, TermId};
use search_rational::Rational;
use search_rows::{LinearRow, RowSign, RowSource, contradiction};
use search_state::Prover;
use search_steps::{Lemma, StepRule};
use std::cmp::Ordering;

/// What contradicts a comparison, as a row that has it.
pub fn against(
    prover: &mut Prover,
    literal: SignedTerm,
    fuel: &mut Fuel,
) -> Result<Option<LinearRow>, SearchStop>
    ensures { fuel.new.left ≤ fuel.old.left }
{
    let row = comparison(prover, literal, fuel)?;
    let row = prover.numbers.solved.reduce(row, fuel)?;
    if row.is_wrong() {
        return Ok(Some(row));
    }
    let near = prover.numbers.near(&row, fuel)?;
    let mut rows = prover.numbers.rows_at(&near)?;
    rows.push(row)?;
    contradiction(prover.alloc, &rows, fuel)
}

/// Says that a comparison is so, where its negation is contradicted. Whether it is.
fn shown(
    prover: &mut Prover,
    side: SignedTerm,
    lemma: &mut Lemma,
    fuel: &mut Fuel,
) -> Result<bool, SearchStop>
    ensures { fuel.new.left ≤ fuel.old.left }
{
    let assumed = side.negated();
    let Some(row) = against(prover, assumed, fuel)? else {
        return Ok(false);
    };
    sum_up(prover, &row, lemma, &[assumed], fuel)?;
    Ok(true)
}

/// The step that says that two numbers are equal, where neither can be less than the other.
pub fn split(prover: &mut Prover, equation: TermId, fuel: &mut Fuel) -> Found
    ensures { fuel.new.left ≤ fuel.old.left }
{
    let (a, b) = (
        prover.terms.part(equation, 0).term(),
        prover.terms.part(equation, 1).term(),
    );
    let sides = [
        prover.terms.at_most(a, b)?.literal(),
        prover.terms.at_most(b, a)?.literal(),
    ];
    let mut lemma = Lemma::new(prover.alloc);
    if !shown(prover, sides[0], &mut lemma, fuel)? || !shown(prover, sides[1], &mut lemma, fuel)? {
        return Ok(None);
    }
    lemma.hints.push(halves(prover, equation, sides)?)?;
    Ok(Some(prover.finish(&lemma, &[equation.literal()], fuel)?))
}

/// The step that says that two numbers are equal where neither is less than the other, by their comparisons.
pub fn halves(
    prover: &mut Prover,
    equation: TermId,
    sides: [SignedTerm; 2],
) -> Result<StepId, SearchStop> {
    let it = equation.literal();
    let literals = [it, sides[0].negated(), sides[1].negated()];
    prover
        .steps
        .add(&literals, StepRule::Split, &[it, sides[0], sides[1]])
}

/// The step that decides a comparison of two terms that equal constants.
pub fn compared(
    prover: &mut Prover,
    n: TermId,
    a: SignedTerm,
    b: SignedTerm,
    fuel: &mut Fuel,
) -> Result<StepId, SearchStop>
    ensures { fuel.new.left ≤ fuel.old.left }
{
    let (Some(one), Some(two)) = (prover.classes.constant(a), prover.classes.constant(b)) else {
        return Err(SearchStop::Exhausted);
    };
    let (left, right) = (
        prover.terms.value(one.term()),
        prover.terms.value(two.term()),
    );
    let holds = left.unwrap_or_default().compare(right.unwrap_or_default())? != Ordering::Greater;
    let assumed = n.signed(!holds);
    let by = if holds {
        Rational::ONE
    } else {
        Rational::MINUS_ONE
    };
    let mut row = LinearRow::new(prover.alloc, RowSign::NotAbove);
    row.add_source(RowSource::holds(assumed), Rational::ONE)?;
    if one != a {
        row.add_source(RowSource::equal(a, one), by)?;
    }
    if two != b {
        row.add_source(RowSource::equal(b, two), by.negated()?)?;
    }
    refuted(prover, &row, assumed, fuel)
}

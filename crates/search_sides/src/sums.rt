// The steps that say contradictions among rows.
ghost use Rattle.std.specs.Prelude.{◌≤◌};

use search_base::{Fuel, SearchStop, SignedTerm, StepId};
use search_rational::Rational;
use search_rows::{LinearRow, RowSign, RowSource};
use search_state::Prover;
use search_steps::{Lemma, sum_step};
use search_theory::prove;

/// A literal with its weight in a step.
type Weighted = (SignedTerm, Rational);

/// The literal of a source, with its weight. What is assumed is no premise.
fn weight(
    prover: &mut Prover,
    source: RowSource,
    by: Rational,
    lemma: &mut Lemma,
    assumed: &[SignedTerm],
    fuel: &mut Fuel,
) -> Result<Weighted, SearchStop>
    ensures { fuel.new.left ≤ fuel.old.left }
{
    let Some((one, two)) = source.pair() else {
        let literal = source.literal().unwrap_or_default();
        if !assumed.contains(&literal) {
            lemma.assume(literal)?;
        }
        return Ok((literal.negated(), by));
    };
    let equation = prove(prover, one, two, lemma, fuel)?;
    let is_turned = prover.terms.part(equation, 0) != one;
    let by = if is_turned { by.negated()? } else { by };
    Ok((equation.literal().negated(), by))
}

/// The literals of what a row is made of, with their weights.
fn weights(
    prover: &mut Prover,
    row: &LinearRow,
    lemma: &mut Lemma,
    assumed: &[SignedTerm],
    fuel: &mut Fuel,
) -> Result<Vec<Weighted>, SearchStop>
    ensures { fuel.new.left ≤ fuel.old.left }
{
    let mut found = Vec::with_capacity(prover.alloc, row.sources.len())?;
    for (source, by) in &row.sources {
        let own = weight(prover, *source, *by, lemma, assumed, fuel)?;
        found.push(own)?;
    }
    Ok(found)
}

/// Says a contradiction among the sources of a row. What is assumed is no premise of the lemma.
pub fn sum_up(
    prover: &mut Prover,
    row: &LinearRow,
    lemma: &mut Lemma,
    assumed: &[SignedTerm],
    fuel: &mut Fuel,
) -> Result<(), SearchStop>
    ensures { fuel.new.left ≤ fuel.old.left }
{
    let weights = weights(prover, row, lemma, assumed, fuel)?;
    lemma.hints.push(sum_step(
        prover.alloc,
        &prover.terms,
        &mut prover.steps,
        &weights,
        fuel,
    )?)?;
    Ok(())
}

/// The step that says that what is assumed in a row that cannot be is so not.
pub fn refuted(
    prover: &mut Prover,
    row: &LinearRow,
    assumed: SignedTerm,
    fuel: &mut Fuel,
) -> Result<StepId, SearchStop>
    ensures { fuel.new.left ≤ fuel.old.left }
{
    let mut lemma = Lemma::new(prover.alloc);
    sum_up(prover, row, &mut lemma, &[assumed], fuel)?;
    prover.finish(&lemma, &[assumed.negated()], fuel)
}

/// The step that says that a row cannot be.
pub(crate) fn wrong(
    prover: &mut Prover,
    row: &LinearRow,
    fuel: &mut Fuel,
) -> Result<StepId, SearchStop>
    ensures { fuel.new.left ≤ fuel.old.left }
{
    match row.assumption() {
        Some(literal) if row.sign == RowSign::NotZero => refuted(prover, row, literal, fuel),
        _ => {
            let mut lemma = Lemma::new(prover.alloc);
            sum_up(prover, row, &mut lemma, &[], fuel)?;
            prover.finish(&lemma, &[], fuel)
        }
    }
}

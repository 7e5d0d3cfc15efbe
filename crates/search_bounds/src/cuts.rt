// Sums of ints that are no whole number at values at which all comparisons are true, though their factors are whole.
ghost use Rattle.std.specs.Prelude.{◌≤◌};

use search_base::{Fuel, SearchStop, SignedTerm, TermId};
use search_rational::{Rational, common_divisor, common_multiple};
use search_rows::{LinearRow, Point};
use search_sides::all_values;
use search_state::Prover;
use search_terms::TermKind;
use std::collections::BTreeSet;

/// So many divisors of one row are tried.
const MOST_DIVISORS: usize = 4;

/// Ints, each with a whole factor.
type Whole = Vec<(TermId, i128)>;

/// A comparison of a sum of ints, the part of a row whose factors have a divisor, over that, with the whole number below its value
/// where that is none. So each side leaves what is not whole out.
pub(crate) fn divided(
    prover: &mut Prover,
    fuel: &mut Fuel,
) -> Result<Option<SignedTerm>, SearchStop>
    ensures { fuel.new.left ≤ fuel.old.left }
{
    let point = all_values(prover, fuel)?;
    let rows = all_rows(prover, fuel)?;
    for row in &rows {
        fuel.take(row.terms.len())?;
        let found = divided_row(prover, row, &point, fuel)?;
        if found.is_some() {
            return Ok(found);
        }
    }
    Ok(None)
}

/// The equations, each without the terms that the others are solved for, and then the comparisons.
fn all_rows(prover: &Prover, fuel: &mut Fuel) -> Result<Vec<LinearRow>, SearchStop>
    ensures { fuel.new.left ≤ fuel.old.left }
{
    let mut found = Vec::new(prover.alloc);
    for at in 0..prover.numbers.solved.count() {
        if let Some(row) = solved_row(prover, at, fuel)? {
            found.push(row)?;
        }
    }
    put_all(&mut found, prover.numbers.comparisons()?)?;
    Ok(found)
}

fn put_all(rows: &mut Vec<LinearRow>, others: Vec<LinearRow>) -> Result<(), SearchStop> {
    for row in others {
        rows.push(row)?;
    }
    Ok(())
}

/// The equation at a place, without the terms that the others are solved for.
pub(crate) fn solved_row(
    prover: &Prover,
    at: usize,
    fuel: &mut Fuel,
) -> Result<Option<LinearRow>, SearchStop>
    ensures { fuel.new.left ≤ fuel.old.left }
{
    match prover.numbers.solved.rows().get(at) {
        Some(row) => Ok(Some(
            prover
                .numbers
                .solved
                .reduce_without(row.again()?, at, fuel)?,
        )),
        None => Ok(None),
    }
}

fn divided_row(
    prover: &mut Prover,
    row: &LinearRow,
    point: &Point,
    fuel: &mut Fuel,
) -> Result<Option<SignedTerm>, SearchStop>
    ensures { fuel.new.left ≤ fuel.old.left }
{
    let Some(common) = common_denominator(prover, row, 1)? else {
        return Ok(None);
    };
    let whole = whole_factors(prover, row, common)?;
    for divisor in &divisors(prover, &whole)? {
        let found = divided_by(prover, &whole, *divisor, point, fuel)?;
        if found.is_some() {
            return Ok(found);
        }
    }
    Ok(None)
}

/// The least divisors above 1 that are factors.
fn divisors(prover: &Prover, whole: &[(TermId, i128)]) -> Result<Vec<i128>, SearchStop> {
    let mut all = BTreeSet::new(prover.alloc);
    for (_, by) in whole {
        let size = by.checked_abs().unwrap_or(1);
        if size > 1 {
            all.insert(size)?;
        }
    }
    Ok(
        all.iter()
            .copied()
            .take(MOST_DIVISORS)
            .collect(prover.alloc)?,
    )
}

/// A comparison of the part of a sum whose factors have a divisor, over that, where its value is no whole number and it is open.
fn divided_by(
    prover: &mut Prover,
    whole: &[(TermId, i128)],
    divisor: i128,
    point: &Point,
    fuel: &mut Fuel,
) -> Result<Option<SignedTerm>, SearchStop>
    ensures { fuel.new.left ≤ fuel.old.left }
{
    let part = part_with(prover, whole, divisor)?;
    if part.len() < 2 {
        return Ok(None);
    }
    let value = value_of(prover, &part, point, fuel)?;
    if value.is_whole() {
        return Ok(None);
    }
    let found = at_most(prover, &part, value.floor()?)?;
    Ok(if prover.values.is_open(found) {
        Some(found)
    } else {
        None
    })
}

/// The terms of a sum whose factors have a divisor, with those over it.
fn part_with(
    prover: &Prover,
    whole: &[(TermId, i128)],
    divisor: i128,
) -> Result<Whole, SearchStop> {
    let mut found = Vec::with_capacity(prover.alloc, whole.len())?;
    for (term, by) in whole {
        if by.checked_rem(divisor) == Some(0) {
            found.push((*term, by.checked_div(divisor).ok_or(SearchStop::Overflow)?))?;
        }
    }
    Ok(found)
}

/// The value of a sum where comparisons have these values.
fn value_of(
    prover: &Prover,
    sum: &[(TermId, i128)],
    point: &Point,
    fuel: &mut Fuel,
) -> Result<Rational, SearchStop>
    ensures { fuel.new.left ≤ fuel.old.left }
{
    let mut value = Rational::ZERO;
    for (term, by) in sum {
        let row = LinearRow::of_term(prover.alloc, *term)?;
        let own = prover.numbers.solved.reduce(row, fuel)?.value(point)?;
        value = value.plus(own.times(Rational::whole(*by))?)?;
    }
    Ok(value)
}

/// A multiple of a number by which the factors of a row are whole; None where it has no terms, or one that is no int.
pub(crate) fn common_denominator(
    prover: &Prover,
    row: &LinearRow,
    first: i128,
) -> Result<Option<i128>, SearchStop> {
    if row.terms.is_empty() {
        return Ok(None);
    }
    let mut common = first;
    for (term, by) in &row.terms {
        if prover.terms.kind(term.literal()) != TermKind::Int {
            return Ok(None);
        }
        common = common_multiple(common, by.denominator()).ok_or(SearchStop::Overflow)?;
    }
    Ok(Some(common))
}

/// The factors of a row, multiplied by what makes them whole.
pub(crate) fn whole_factors(
    prover: &Prover,
    row: &LinearRow,
    common: i128,
) -> Result<Whole, SearchStop> {
    let mut found = Vec::with_capacity(prover.alloc, row.terms.len())?;
    for (term, by) in &row.terms {
        found.push((*term, by.times(Rational::whole(common))?.numerator()))?;
    }
    Ok(found)
}

/// The greatest divisor of all whole factors, 0 where there are none.
pub(crate) fn divisor_of(whole: &[(TermId, i128)]) -> Result<i128, SearchStop> {
    let mut found = 0;
    for (_, by) in whole {
        found = common_divisor(found, *by).ok_or(SearchStop::Overflow)?;
    }
    Ok(found)
}

/// The comparison that says that a sum is not above a number.
pub(crate) fn at_most(
    prover: &mut Prover,
    sum: &[(TermId, i128)],
    limit: i128,
) -> Result<SignedTerm, SearchStop> {
    let total = prover.terms.sum_of_times(sum)?;
    let limit = prover.terms.number(Rational::whole(limit), TermKind::Int)?;
    Ok(prover.terms.at_most(total.term(), limit)?.literal())
}

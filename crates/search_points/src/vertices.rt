// Values at a vertex of what is assigned of numbers.
ghost use Rattle.std.specs.Prelude.{◌≤◌};

use search_base::{Fuel, SearchStop, TermId};
use search_rational::Rational;
use search_rows::{LinearRow, Point, RowSign, contradiction, solution};
use search_state::Prover;
use std::alloc::Global;

/// What is below 0 is so by 1/2, or else by the square of that, and so on: so many gaps are tried.
const MOST_GAPS: u32 = 6;

/// Values at which the comparisons hold that are assigned, and these. None where they contradict each other.
pub(crate) fn vertex_with(
    prover: &Prover,
    rows: &[LinearRow],
    fuel: &mut Fuel,
) -> Result<Option<Point>, SearchStop>
    ensures { fuel.new.left ≤ fuel.old.left }
{
    fuel.take(prover.numbers.rows.len())?;
    if rows.iter().any(|it| it.is_wrong()) {
        return Ok(None);
    }
    let all = all_rows(prover, rows)?;
    let Some(found) = vertex(prover.alloc, all, fuel)? else {
        return Ok(None);
    };
    let mut point = found;
    put_solved(prover, &mut point)?;
    Ok(Some(point))
}

/// Values at which rows are true that are none of them equations. None where none are found.
fn vertex(alloc: Global, rows: Vec<LinearRow>, fuel: &mut Fuel) -> Result<Option<Point>, SearchStop>
    ensures { fuel.new.left ≤ fuel.old.left }
{
    if contradiction(alloc, &rows, fuel)?.is_some() {
        return Ok(None);
    }
    let strict = strict_places(alloc, &rows)?;
    if strict.is_empty() {
        return Ok(Some(solution(alloc, &rows, fuel)?));
    }
    let mut closed = rows;
    let mut gap = Rational::new(1, 2)?;
    let mut before = Rational::ZERO;
    for _ in 0..MOST_GAPS {
        close(&mut closed, &strict, gap, before)?;
        before = gap;
        gap = gap.times(gap)?;
        if contradiction(alloc, &closed, fuel)?.is_none() {
            return Ok(Some(solution(alloc, &closed, fuel)?));
        }
    }
    Ok(None)
}

/// The places of the rows that are below 0.
fn strict_places(alloc: Global, rows: &[LinearRow]) -> Result<Vec<usize>, SearchStop> {
    let mut found = Vec::new(alloc);
    for at in 0..rows.len() {
        if let Some(row) = rows.get(at) {
            if row.sign == RowSign::Below {
                found.push(at)?;
            }
        }
    }
    Ok(found)
}

/// Makes rows at places below 0 by a gap, in place of another one.
fn close(
    rows: &mut [LinearRow],
    places: &[usize],
    gap: Rational,
    before: Rational,
) -> Result<(), SearchStop> {
    for at in places {
        if let Some(row) = rows.get_mut(*at) {
            let more = if row.sign == RowSign::Below {
                gap
            } else {
                gap.minus(before)?
            };
            row.sign = RowSign::NotAbove;
            row.number = row.number.plus(more)?;
        }
    }
    Ok(())
}

/// The comparisons that are assigned, and these.
fn all_rows(prover: &Prover, rows: &[LinearRow]) -> Result<Vec<LinearRow>, SearchStop> {
    let mut found = prover.numbers.comparisons()?;
    for row in rows {
        if !row.terms.is_empty() {
            found.push(row.again()?)?;
        }
    }
    Ok(found)
}

/// Puts the values of the terms that equations are solved for: no equation that was taken later has the term of an earlier one.
fn put_solved(prover: &Prover, point: &mut Point) -> Result<(), SearchStop> {
    for row in prover.numbers.solved.rows().iter().rev() {
        put_pivot(row, point)?;
    }
    Ok(())
}

/// Puts the value of the term that an equation is solved for, and 0 for the others of its terms that have none.
fn put_pivot(row: &LinearRow, point: &mut Point) -> Result<(), SearchStop> {
    let Some(pivot) = row.pivot() else {
        return Ok(());
    };
    let mut rest = row.number;
    for (term, by) in &row.terms {
        if *term != pivot {
            rest = rest.plus(value_or_zero(point, *term)?.times(*by)?)?;
        }
    }
    point.insert(pivot, rest.negated()?.over(row.factor(pivot))?)?;
    Ok(())
}

/// The value of a term, which is 0 from now on where it has none.
fn value_or_zero(point: &mut Point, term: TermId) -> Result<Rational, SearchStop> {
    if let Some(found) = point.get(&term) {
        return Ok(*found);
    }
    point.insert(term, Rational::ZERO)?;
    Ok(Rational::ZERO)
}

// Values at which comparisons are true, and equations that are nearly true there.
ghost use Rattle.std.specs.Prelude.{◌≤◌};

use search_base::{Fuel, SearchStop, TermId};
use search_rational::Rational;
use search_rows::{LinearRow, Point, RowSign, needed, solution};
use search_state::Prover;
use std::alloc::Global;

/// Values at which all comparisons that hold are true.
pub fn all_values(prover: &Prover, fuel: &mut Fuel) -> Result<Point, SearchStop>
    ensures { fuel.new.left ≤ fuel.old.left }
{
    let rows = prover.numbers.comparisons()?;
    solution(prover.alloc, &rows, fuel)
}

/// The equations among rows that do not hold, and are nearly true at values at which the others are.
pub fn close_ones(
    alloc: Global,
    rows: &[LinearRow],
    fuel: &mut Fuel,
) -> Result<Vec<TermId>, SearchStop>
    ensures { fuel.new.left ≤ fuel.old.left }
{
    let (count, kept) = terms_of_unequals(alloc, rows)?;
    if count == 0 || count == rows.len() {
        return Ok(Vec::new(alloc));
    }
    let comparisons = needed(alloc, rows, &kept, fuel)?;
    let point = solution(alloc, &comparisons, fuel)?;
    close_at(alloc, rows, &point)
}

/// How many rows are equations that do not hold, and the terms of these, rising.
fn terms_of_unequals(
    alloc: Global,
    rows: &[LinearRow],
) -> Result<(usize, Vec<TermId>), SearchStop> {
    let mut count: usize = 0;
    let mut found = Vec::new(alloc);
    for row in rows {
        if row.sign == RowSign::NotZero {
            count = count.saturating_add(1);
            for (term, _) in &row.terms {
                found.push(*term)?;
            }
        }
    }
    found.sort_unstable();
    found.dedup();
    Ok((count, found))
}

/// The equations that do not hold, and are off by less than 1 at these values.
fn close_at(alloc: Global, rows: &[LinearRow], point: &Point) -> Result<Vec<TermId>, SearchStop> {
    let mut found = Vec::new(alloc);
    for row in rows {
        if row.sign == RowSign::NotZero {
            let apart = row.value(point)?;
            let is_low = apart.minus(Rational::ONE)?.is_negative();
            let is_high = apart.plus(Rational::ONE)?.is_positive();
            if let Some(literal) = row.assumption() {
                if is_low && is_high && literal.is_negated() {
                    found.push(literal.term())?;
                }
            }
        }
    }
    Ok(found)
}

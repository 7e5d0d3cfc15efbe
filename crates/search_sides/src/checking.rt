// Whether what is assigned of numbers goes together.
ghost use Rattle.std.specs.Prelude.{◌≤◌};

use crate::comparing::{comparison, difference};
use crate::splits::split;
use crate::sums::wrong;
use crate::values::close_ones;
use search_base::{Found, Fuel, SearchStop, SignedTerm, TermId};
use search_numbers::Around;
use search_rational::Rational;
use search_rows::{LinearRow, RowSign, RowSource, Taken, contradiction};
use search_state::Prover;
use search_terms::TermOp;

/// Takes what was assigned of numbers since this was last asked. Gives back a step that is false.
pub fn check_numbers(prover: &mut Prover, fuel: &mut Fuel) -> Found
    ensures { fuel.new.left ≤ fuel.old.left }
{
    if let Some(row) = take_merges(prover, fuel)? {
        return Ok(Some(wrong(prover, &row, fuel)?));
    }
    if let Some(row) = take_literals(prover, fuel)? {
        return Ok(Some(wrong(prover, &row, fuel)?));
    }
    check_fresh(prover, fuel)
}

/// Takes the unions of classes that came since. Gives back a row that cannot be.
fn take_merges(prover: &mut Prover, fuel: &mut Fuel) -> Result<Option<LinearRow>, SearchStop>
    ensures { fuel.new.left ≤ fuel.old.left }
{
    while let Some((a, b)) = prover.numbers.next_merge(prover.classes.merges()) {
        fuel.take(1)?;
        let wrong = take_merge(prover, a, b, fuel)?;
        if wrong.is_some() {
            return Ok(wrong);
        }
    }
    Ok(None)
}

/// Takes that two numbers are equal. Gives back a row that cannot be.
fn take_merge(
    prover: &mut Prover,
    a: SignedTerm,
    b: SignedTerm,
    fuel: &mut Fuel,
) -> Result<Option<LinearRow>, SearchStop>
    ensures { fuel.new.left ≤ fuel.old.left }
{
    let mut row = difference(prover, a, b, fuel)?;
    row.sources.push((RowSource::equal(a, b), Rational::ONE))?;
    match prover.numbers.solved.take(row, fuel)? {
        Taken::Nothing => Ok(None),
        Taken::For(term) => prover.numbers.solve_for(term, fuel),
        Taken::Wrong(row) => Ok(Some(row)),
    }
}

/// Takes the comparisons that came since. Gives back a row that cannot be.
fn take_literals(prover: &mut Prover, fuel: &mut Fuel) -> Result<Option<LinearRow>, SearchStop>
    ensures { fuel.new.left ≤ fuel.old.left }
{
    while let Some(literal) = prover.numbers.next_compared() {
        fuel.take(1)?;
        let wrong = take_literal(prover, literal, fuel)?;
        if wrong.is_some() {
            return Ok(wrong);
        }
    }
    Ok(None)
}

/// Takes a comparison, unless an equation that does not hold says the same already. Gives back a row that cannot be.
fn take_literal(
    prover: &mut Prover,
    literal: SignedTerm,
    fuel: &mut Fuel,
) -> Result<Option<LinearRow>, SearchStop>
    ensures { fuel.new.left ≤ fuel.old.left }
{
    let row = row_of(prover, literal, fuel)?;
    let row = prover.numbers.solved.reduce(row, fuel)?;
    if row.is_wrong() {
        return Ok(Some(row));
    }
    let is_known = row.sign == RowSign::NotZero
        && prover.numbers.unequal_like(&row, fuel)?.is_some();
    if !row.terms.is_empty() && !is_known {
        prover.numbers.push(row)?;
    }
    Ok(None)
}

/// The row of a comparison that is true, or of an equation that is false.
fn row_of(
    prover: &mut Prover,
    literal: SignedTerm,
    fuel: &mut Fuel,
) -> Result<LinearRow, SearchStop>
    ensures { fuel.new.left ≤ fuel.old.left }
{
    let n = literal.term();
    if prover.terms.op(n) == TermOp::Le {
        return comparison(prover, literal, fuel);
    }
    let (a, b) = (prover.terms.part(n, 0), prover.terms.part(n, 1));
    let mut row = difference(prover, a, b, fuel)?;
    row.sign = RowSign::NotZero;
    row.sources
        .push((RowSource::holds(literal), Rational::ONE))?;
    Ok(row)
}

/// Looks at the rows that came since with those around them. Gives back a step that is false.
fn check_fresh(prover: &mut Prover, fuel: &mut Fuel) -> Found
    ensures { fuel.new.left ≤ fuel.old.left }
{
    while let Some(at) = prover.numbers.first_fresh() {
        fuel.take(1)?;
        let around = prover.numbers.around(at, fuel)?;
        let conflict = check_around(prover, &around, fuel)?;
        if conflict.is_some() {
            return Ok(conflict);
        }
        prover.numbers.settle(at);
        settle_all(prover, &around.near);
        settle_all(prover, &around.unequals);
    }
    Ok(None)
}

fn settle_all(prover: &mut Prover, places: &[usize]) {
    for at in places {
        prover.numbers.settle(*at);
    }
}

/// Looks at rows, and then at the equations beside them that do not hold. Gives back a step that is false.
fn check_around(prover: &mut Prover, around: &Around, fuel: &mut Fuel) -> Found
    ensures { fuel.new.left ≤ fuel.old.left }
{
    let mut rows = prover.numbers.rows_at(&around.all)?;
    fuel.take(rows.len())?;
    if let Some(row) = contradiction(prover.alloc, &rows, fuel)? {
        return Ok(Some(wrong(prover, &row, fuel)?));
    }
    for row in prover.numbers.rows_at(&around.unequals)? {
        rows.push(row)?;
    }
    let equations = close_ones(prover.alloc, &rows, fuel)?;
    split_one(prover, &equations, fuel)
}

/// A step for the first of some equations that follows from comparisons, and does not hold.
fn split_one(prover: &mut Prover, equations: &[TermId], fuel: &mut Fuel) -> Found
    ensures { fuel.new.left ≤ fuel.old.left }
{
    for equation in equations {
        let found = split(prover, *equation, fuel)?;
        if found.is_some() {
            return Ok(found);
        }
    }
    Ok(None)
}

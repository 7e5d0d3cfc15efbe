// What is wrong with values of numbers, and the ways to change it.
ghost use Rattle.std.specs.Prelude.{◌≤◌};

use crate::candidates::candidates;
use crate::limits::limit;
use crate::operations::{number_at, operation};
use crate::vertices::vertex_with;
use crate::ways::Way;
use search_base::{Fuel, SearchStop, TermId};
use search_rational::Rational;
use search_rows::{LinearRow, Point, RowSign};
use search_state::Prover;
use search_terms::{TermKind, TermOp};
use std::cmp::Ordering;

/// Divisors alone are tried for the factors of a product that can be nothing else, where it is below this.
const END_OF_FIXED: u128 = 1_000_000;

/// The quotients that are tried, by how far they are from the one at the values.
const NEAR_QUOTIENTS: [i128; 5] = [0, 1, -1, 2, -2];

/// A product, quotient or remainder that is not that of its parts: its parts, their values, and what it is.
#[derive(Clone, Copy)]
struct Wrong {
    term: TermId,
    parts: [TermId; 2],
    values: [Rational; 2],
    wanted: Rational,
}

/// The ways to change the first fault of values. None where they have none. The rows are those that were tried so far.
pub(crate) fn ways_on(
    prover: &mut Prover,
    point: &Point,
    rows: &mut Vec<LinearRow>,
    fuel: &mut Fuel,
) -> Result<Option<Vec<Way>>, SearchStop>
    ensures { fuel.new.left ≤ fuel.old.left }
{
    fuel.take(prover.numbers.rows.len())?;
    if let Some(found) = at_fraction(prover, point)? {
        return Ok(Some(found));
    }
    if let Some(found) = at_equal(prover, point)? {
        return Ok(Some(found));
    }
    match first_wrong(prover, point, fuel)? {
        Some(wrong) => Ok(Some(at_wrong(prover, wrong, rows, fuel)?)),
        None => Ok(None),
    }
}

/// The ways on from a whole number that is not whole: the nearer one first.
fn at_fraction(prover: &Prover, point: &Point) -> Result<Option<Vec<Way>>, SearchStop> {
    for (n, value) in point {
        if prover.terms.kind(n.literal()) == TermKind::Int && !value.is_whole() {
            let floor = value.floor()?;
            let above = floor.checked_add(1).ok_or(SearchStop::Overflow)?;
            let rest = value.minus(Rational::whole(floor))?;
            let is_low = rest.plus(rest)?.compare(Rational::ONE)? == Ordering::Less;
            let (down, up) = (Way::Down(*n, floor), Way::Up(*n, above));
            let ways = if is_low { [down, up] } else { [up, down] };
            return Ok(Some(vec![in prover.alloc; ways[0], ways[1]]?));
        }
    }
    Ok(None)
}

/// The ways on from what is not 0 and is 0 at the values.
fn at_equal(prover: &Prover, point: &Point) -> Result<Option<Vec<Way>>, SearchStop> {
    for at in 0..prover.numbers.rows.len() {
        if is_equal(prover, at, point)? {
            let ways = vec![in prover.alloc; Way::Above(at), Way::Below(at)]?;
            return Ok(Some(ways));
        }
    }
    Ok(None)
}

/// Whether the row at a place says that something is not 0 which is 0 at the values.
fn is_equal(prover: &Prover, at: usize, point: &Point) -> Result<bool, SearchStop> {
    match prover.numbers.rows.get(at) {
        Some(row) if row.sign == RowSign::NotZero => Ok(row.value(point)?.is_zero()),
        _ => Ok(false),
    }
}

/// The first product, quotient or remainder that is not that of its parts.
fn first_wrong(
    prover: &mut Prover,
    point: &Point,
    fuel: &mut Fuel,
) -> Result<Option<Wrong>, SearchStop>
    ensures { fuel.new.left ≤ fuel.old.left }
{
    for (n, wanted) in point {
        if let Some(found) = wrong_at(prover, *n, *wanted, point, fuel)? {
            return Ok(Some(found));
        }
    }
    Ok(None)
}

fn wrong_at(
    prover: &mut Prover,
    n: TermId,
    wanted: Rational,
    point: &Point,
    fuel: &mut Fuel,
) -> Result<Option<Wrong>, SearchStop>
    ensures { fuel.new.left ≤ fuel.old.left }
{
    let op = prover.terms.op(n);
    if !matches!(op, TermOp::Mul | TermOp::Div | TermOp::IntDiv | TermOp::Mod) {
        return Ok(None);
    }
    let a = prover.terms.part(n, 0).term();
    let b = prover.terms.part(n, 1).term();
    let one = number_at(prover, a, point, fuel)?;
    let two = number_at(prover, b, point, fuel)?;
    if operation(op, one, two)? == wanted {
        return Ok(None);
    }
    Ok(Some(Wrong {
        term: n,
        parts: [a, b],
        values: [one, two],
        wanted,
    }))
}

/// The ways on from a product, quotient or remainder that is not that of its parts: a part is a number, so it is linear.
fn at_wrong(
    prover: &mut Prover,
    wrong: Wrong,
    rows: &mut Vec<LinearRow>,
    fuel: &mut Fuel,
) -> Result<Vec<Way>, SearchStop>
    ensures { fuel.new.left ≤ fuel.old.left }
{
    if prover.terms.op(wrong.term) == TermOp::Mul {
        let is_fixed = is_fixed(prover, wrong.term, wrong.wanted, rows, fuel)?;
        return at_product(prover, wrong, is_fixed);
    }
    let mut found = Vec::new(prover.alloc);
    for value in &candidates(
        prover,
        wrong.parts[1],
        wrong.values[1],
        wrong.values[0],
        false,
    )? {
        put_divisor(prover, wrong, *value, &mut found)?;
    }
    Ok(found)
}

/// Puts the ways by a divisor.
fn put_divisor(
    prover: &Prover,
    wrong: Wrong,
    value: Rational,
    found: &mut Vec<Way>,
) -> Result<(), SearchStop> {
    if value.is_zero() || prover.terms.op(wrong.term) != TermOp::Mod {
        found.push(Way::Divisor {
            quotient: wrong.term,
            value,
        })?;
        return Ok(());
    }
    let near = wrong.values[0].over(value)?.floor()?;
    for more in NEAR_QUOTIENTS {
        let quotient = near.checked_add(more).ok_or(SearchStop::Overflow)?;
        found.push(Way::Remainder {
            rest: wrong.term,
            value,
            quotient: Rational::whole(quotient),
        })?;
    }
    Ok(())
}

/// The ways on from a product: a value of one factor, and then one of the other.
fn at_product(prover: &Prover, wrong: Wrong, is_fixed: bool) -> Result<Vec<Way>, SearchStop> {
    let [a, b] = wrong.parts;
    let (is_square, wanted) = (a == b, wrong.wanted);
    let mut ones = candidates(prover, a, wrong.values[0], wanted, is_square)?;
    if is_fixed && wanted.numerator().unsigned_abs() < END_OF_FIXED {
        ones.retain(|it| divides(*it, wanted, is_square));
    }
    let twos = if is_square || is_fixed && !wanted.is_zero() {
        Vec::new(prover.alloc)
    } else {
        candidates(prover, b, wrong.values[1], wanted, false)?
    };
    in_turn(prover, wrong, &ones, &twos)
}

/// The ways by values of the one factor and of the other in turn.
fn in_turn(
    prover: &Prover,
    wrong: Wrong,
    ones: &[Rational],
    twos: &[Rational],
) -> Result<Vec<Way>, SearchStop> {
    let [a, b] = wrong.parts;
    let mut found = Vec::new(prover.alloc);
    for k in 0..ones.len().max(twos.len()) {
        for (factor, other, values) in [(a, b, ones), (b, a, twos)] {
            if let Some(value) = values.get(k) {
                found.push(Way::Factor {
                    product: wrong.term,
                    factor,
                    other,
                    value: *value,
                })?;
            }
        }
    }
    Ok(found)
}

/// Whether a factor divides a whole product, and is its root where it is to be.
fn divides(factor: Rational, product: Rational, is_square: bool) -> bool {
    if factor.is_zero() {
        return product.is_zero();
    }
    let rest = product.numerator().checked_rem(factor.numerator());
    rest == Some(0) && (!is_square || factor.times(factor) == Ok(product))
}

/// Whether a whole number can have no other value.
fn is_fixed(
    prover: &mut Prover,
    n: TermId,
    value: Rational,
    rows: &mut Vec<LinearRow>,
    fuel: &mut Fuel,
) -> Result<bool, SearchStop>
    ensures { fuel.new.left ≤ fuel.old.left }
{
    if prover.terms.kind(n.literal()) != TermKind::Int {
        return Ok(false);
    }
    for by in [Rational::ONE, Rational::MINUS_ONE] {
        let row = limit(prover, &[(n, Rational::ONE)], by.minus(value)?, by, fuel)?;
        rows.push(row)?;
        let found = vertex_with(prover, rows, fuel)?;
        let _ = rows.pop();
        if found.is_some() {
            return Ok(false);
        }
    }
    Ok(true)
}

// Numbers that are equal since neither can be less than the other: said where there are products, which then may have equal factors,
// and where there are remainders, of which cuts then know more.
ghost use Rattle.std.specs.Prelude.{◌≤◌};

use search_base::{Found, Fuel, SearchStop, SignedTerm, TermId};
use search_rational::Rational;
use search_rows::{LinearRow, RowSign};
use search_sides::split;
use search_state::Prover;
use search_terms::{TermKind, TermOp};
use search_theory::attach;
use std::collections::BTreeMap;

/// A number as a key: its numerator and its denominator.
type Fraction = (i128, i128);

/// A sum, multiplied so that its first factor is 1: its terms, and its number.
type Shape = (Vec<(TermId, Fraction)>, Fraction);

fn pair_of(it: Rational) -> Fraction {
    (it.numerator(), it.denominator())
}

/// The shape of a row, and whether it was multiplied by a number above 0.
fn shape_of(prover: &Prover, row: &LinearRow) -> Result<(Shape, bool), SearchStop> {
    let first = match row.terms.first() {
        Some(it) => it.1,
        None => Rational::ONE,
    };
    let mut terms = Vec::with_capacity(prover.alloc, row.terms.len())?;
    for (term, by) in &row.terms {
        terms.push((*term, pair_of(by.over(first)?)))?;
    }
    let number = pair_of(row.number.over(first)?);
    Ok(((terms, number), first.is_positive()))
}

/// Says of two numbers that they are equal, where a comparison and its converse hold. Gives back a step that is false.
pub fn tighten(prover: &mut Prover, fuel: &mut Fuel) -> Found
    ensures { fuel.new.left ≤ fuel.old.left }
{
    if prover.products.factors.is_empty() && !prover.products.has_rests {
        return Ok(None);
    }
    for equation in &tight_ones(prover, fuel)? {
        if prover.values.is_open(equation.literal()) {
            let conflict = split_one(prover, *equation, fuel)?;
            if conflict.is_some() {
                return Ok(conflict);
            }
        }
    }
    Ok(None)
}

fn split_one(prover: &mut Prover, equation: TermId, fuel: &mut Fuel) -> Found
    ensures { fuel.new.left ≤ fuel.old.left }
{
    match split(prover, equation, fuel)? {
        Some(step) => attach(prover, step, fuel),
        None => Ok(None),
    }
}

/// The comparisons that were met, by their shapes: those whose first factor is above 0, and those whose is below.
#[derive(Drop)]
struct Sides {
    above: BTreeMap<Shape, usize>,
    below: BTreeMap<Shape, usize>,
}

impl Sides {
    /// Notes the comparison at a place, and gives the last one that is its converse.
    fn meet(
        &mut self,
        shape: Shape,
        is_above: bool,
        at: usize,
    ) -> Result<Option<usize>, SearchStop> {
        if is_above {
            let found = self.below.get(&shape).copied();
            self.above.insert(shape, at)?;
            Ok(found)
        } else {
            let found = self.above.get(&shape).copied();
            self.below.insert(shape, at)?;
            Ok(found)
        }
    }
}

/// Equations that may follow from two comparisons.
fn tight_ones(prover: &mut Prover, fuel: &mut Fuel) -> Result<Vec<TermId>, SearchStop>
    ensures { fuel.new.left ≤ fuel.old.left }
{
    let mut sides = Sides {
        above: BTreeMap::new(prover.alloc),
        below: BTreeMap::new(prover.alloc),
    };
    let mut found = Vec::new(prover.alloc);
    for at in 0..prover.numbers.rows.len() {
        fuel.take(1)?;
        if let Some(equation) = tight_at(prover, at, &mut sides)? {
            found.push(equation)?;
        }
    }
    Ok(found)
}

/// The equation that may follow from the comparison at a place and one before it.
fn tight_at(
    prover: &mut Prover,
    at: usize,
    sides: &mut Sides,
) -> Result<Option<TermId>, SearchStop> {
    let Some(row) = prover.numbers.rows.get(at) else {
        return Ok(None);
    };
    if row.sign != RowSign::NotAbove {
        return Ok(None);
    }
    let (shape, is_above) = shape_of(prover, row)?;
    match sides.meet(shape, is_above, at)? {
        Some(other) => equation_of(prover, [at, other]),
        None => Ok(None),
    }
}

/// An equation that says what two opposite comparisons say.
fn equation_of(prover: &mut Prover, places: [usize; 2]) -> Result<Option<TermId>, SearchStop> {
    for row in &prover.numbers.rows_at(&places)? {
        let found = equation_by(prover, row)?;
        if found.is_some() {
            return Ok(found);
        }
        if let [(term, by)] = row.terms.as_slice() {
            let kind = prover.terms.kind(term.literal());
            let limit = prover.terms.number(row.number.negated()?.over(*by)?, kind)?;
            return equated(prover, term.literal(), limit.literal());
        }
    }
    Ok(None)
}

/// An equation that says that one of the comparisons of which a row is made is at its limit.
fn equation_by(prover: &mut Prover, row: &LinearRow) -> Result<Option<TermId>, SearchStop> {
    for (source, _) in &row.sources {
        if let Some(literal) = source.literal() {
            if prover.terms.op(literal.term()) == TermOp::Le {
                let found = equation_at_limit(prover, literal)?;
                if found.is_some() {
                    return Ok(found);
                }
            }
        }
    }
    Ok(None)
}

/// The equation that says that a comparison which holds is at its limit. None where it would need a new sum.
fn equation_at_limit(
    prover: &mut Prover,
    literal: SignedTerm,
) -> Result<Option<TermId>, SearchStop> {
    let (a, b) = (
        prover.terms.part(literal.term(), 0),
        prover.terms.part(literal.term(), 1),
    );
    if literal.is_plain() {
        return equated(prover, a, b);
    }
    if prover.terms.kind(a) != TermKind::Int {
        return Ok(None);
    }
    if let Some(value) = prover.terms.value(b.term()) {
        let limit = prover
            .terms
            .number(value.plus(Rational::ONE)?, TermKind::Int)?;
        return equated(prover, a, limit.literal());
    }
    if let Some(value) = prover.terms.value(a.term()) {
        let limit = prover
            .terms
            .number(value.minus(Rational::ONE)?, TermKind::Int)?;
        return equated(prover, b, limit.literal());
    }
    Ok(None)
}

/// The equation of two terms, unless they are known to be equal.
fn equated(
    prover: &mut Prover,
    a: SignedTerm,
    b: SignedTerm,
) -> Result<Option<TermId>, SearchStop> {
    if prover.classes.has(a) && prover.classes.are_same(a, b) {
        return Ok(None);
    }
    Ok(Some(prover.terms.equal(a, b)?))
}

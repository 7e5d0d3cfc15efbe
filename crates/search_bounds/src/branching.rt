// What to decide of numbers, where what is assigned of them goes together.
ghost use Rattle.std.specs.Prelude.{◌≤◌};

use crate::cuts::{common_denominator, divided, divisor_of, solved_row, whole_factors};
use search_base::{Fuel, SearchStop, SignedTerm, StepId, TermId};
use search_rational::Rational;
use search_rows::{LinearRow, Point};
use search_sides::{all_values, close_ones, difference, halves};
use search_state::Prover;
use search_terms::{TermKind, TermOp};
use std::collections::BTreeSet;

/// The places of the factors of two products.
const PLACES: [(usize, usize); 4] = [(0, 0), (0, 1), (1, 0), (1, 1)];

/// What is decided where numbers need it, if they do, and the step that is attached before.
#[derive(Clone, Copy)]
pub struct Decision {
    pub step: Option<StepId>,
    pub literal: Option<SignedTerm>,
}

impl Decision {
    fn on(literal: Option<SignedTerm>) -> Decision {
        Decision {
            step: None,
            literal,
        }
    }
}

/// A literal to decide where numbers need it.
pub fn branch(prover: &mut Prover, fuel: &mut Fuel) -> Result<Decision, SearchStop>
    ensures { fuel.new.left ≤ fuel.old.left }
{
    if let Some(found) = halved(prover, fuel)? {
        return Ok(found);
    }
    if let Some(equation) = equal_factors(prover, fuel)? {
        return Ok(Decision::on(Some(equation.literal().negated())));
    }
    let cut = cut(prover, fuel)?;
    if cut.is_some() {
        return Ok(Decision::on(cut));
    }
    let cut = divided(prover, fuel)?;
    if cut.is_some() {
        return Ok(Decision::on(cut));
    }
    Ok(Decision::on(between(prover, fuel)?))
}

/// A side of an equation of ints that does not hold, and is nearly true.
fn halved(prover: &mut Prover, fuel: &mut Fuel) -> Result<Option<Decision>, SearchStop>
    ensures { fuel.new.left ≤ fuel.old.left }
{
    let equations = close_ones(prover.alloc, &prover.numbers.rows, fuel)?;
    first_half(prover, &equations)
}

fn first_half(prover: &mut Prover, equations: &[TermId]) -> Result<Option<Decision>, SearchStop> {
    for equation in equations {
        let (a, b) = (
            prover.terms.part(*equation, 0),
            prover.terms.part(*equation, 1),
        );
        if prover.terms.kind(a) == TermKind::Int {
            let one = prover.terms.at_most(a.term(), b.term())?.literal();
            let two = prover.terms.at_most(b.term(), a.term())?.literal();
            if prover.values.is_open(one) || prover.values.is_open(two) {
                let step = halves(prover, *equation, [one, two])?;
                return Ok(Some(Decision {
                    step: Some(step),
                    literal: Some(one.negated()),
                }));
            }
        }
    }
    Ok(None)
}

// ---- products

/// An open equation of factors of two products, which are equal at values at which the comparisons are true.
fn equal_factors(prover: &mut Prover, fuel: &mut Fuel) -> Result<Option<TermId>, SearchStop>
    ensures { fuel.new.left ≤ fuel.old.left }
{
    if prover.products.factors.is_empty() {
        return Ok(None);
    }
    let point = all_values(prover, fuel)?;
    let known = known_products(prover)?;
    for k in 0..known.len() {
        let others = known.get(..k).unwrap_or(&[]);
        let product = known.get(k).copied().unwrap_or_default();
        let found = equal_to_others(prover, product, others, &point, fuel)?;
        if found.is_some() {
            return Ok(found);
        }
    }
    Ok(None)
}

/// The products that have a class, as they came.
fn known_products(prover: &Prover) -> Result<Vec<TermId>, SearchStop> {
    let mut found = Vec::new(prover.alloc);
    for factor in &prover.products.factors {
        if prover.classes.has(factor.product.literal()) {
            found.push(factor.product)?;
        }
    }
    Ok(found)
}

fn equal_to_others(
    prover: &mut Prover,
    product: TermId,
    others: &[TermId],
    point: &Point,
    fuel: &mut Fuel,
) -> Result<Option<TermId>, SearchStop>
    ensures { fuel.new.left ≤ fuel.old.left }
{
    for other in others {
        let found = equal_in_two(prover, product, *other, point, fuel)?;
        if found.is_some() {
            return Ok(found);
        }
    }
    Ok(None)
}

fn equal_in_two(
    prover: &mut Prover,
    product: TermId,
    other: TermId,
    point: &Point,
    fuel: &mut Fuel,
) -> Result<Option<TermId>, SearchStop>
    ensures { fuel.new.left ≤ fuel.old.left }
{
    for places in &PLACES {
        let a = prover.terms.part(product, places.0);
        let b = prover.terms.part(other, places.1);
        if let Some(equation) = open_equation(prover, a, b)? {
            if apart_at(prover, a, b, point, fuel)?.is_zero() {
                return Ok(Some(equation));
            }
        }
    }
    Ok(None)
}

/// The equation of two numbers of one kind in two classes, where it is open.
fn open_equation(
    prover: &mut Prover,
    a: SignedTerm,
    b: SignedTerm,
) -> Result<Option<TermId>, SearchStop> {
    if prover.classes.are_same(a, b) || prover.terms.kind(a) != prover.terms.kind(b) {
        return Ok(None);
    }
    let equation = prover.terms.equal(a, b)?;
    let is_open = prover.values.is_open(equation.literal());
    Ok(if is_open { Some(equation) } else { None })
}

/// How far two numbers are apart where the comparisons have these values.
fn apart_at(
    prover: &mut Prover,
    a: SignedTerm,
    b: SignedTerm,
    point: &Point,
    fuel: &mut Fuel,
) -> Result<Rational, SearchStop>
    ensures { fuel.new.left ≤ fuel.old.left }
{
    let row = difference(prover, a, b, fuel)?;
    prover.numbers.solved.reduce(row, fuel)?.value(point)
}

// ---- ints

/// A comparison of an int that has a value which is none.
fn between(prover: &mut Prover, fuel: &mut Fuel) -> Result<Option<SignedTerm>, SearchStop>
    ensures { fuel.new.left ≤ fuel.old.left }
{
    let point = all_values(prover, fuel)?;
    for term in &all_terms(prover)? {
        if prover.terms.kind(term.literal()) == TermKind::Int {
            let row = LinearRow::of_term(prover.alloc, *term)?;
            let value = prover.numbers.solved.reduce(row, fuel)?.value(&point)?;
            if !value.is_whole() {
                let limit = prover
                    .terms
                    .number(Rational::whole(value.floor()?), TermKind::Int)?;
                return Ok(Some(prover.terms.at_most(*term, limit)?.literal()));
            }
        }
    }
    Ok(None)
}

/// The terms of all rows, rising.
fn all_terms(prover: &Prover) -> Result<Vec<TermId>, SearchStop> {
    let mut all = BTreeSet::new(prover.alloc);
    put_terms(&mut all, &prover.numbers.rows)?;
    put_terms(&mut all, prover.numbers.solved.rows())?;
    Ok(all.iter().copied().collect(prover.alloc)?)
}

fn put_terms(all: &mut BTreeSet<TermId>, rows: &[LinearRow]) -> Result<(), SearchStop> {
    for row in rows {
        for (term, _) in &row.terms {
            all.insert(*term)?;
        }
    }
    Ok(())
}

/// A comparison that neither way goes with an equation of ints whose factors have a divisor that its number has not.
fn cut(prover: &mut Prover, fuel: &mut Fuel) -> Result<Option<SignedTerm>, SearchStop>
    ensures { fuel.new.left ≤ fuel.old.left }
{
    for at in 0..prover.numbers.solved.count() {
        if let Some(row) = solved_row(prover, at, fuel)? {
            if let Some(found) = half_of(prover, &row)? {
                return Ok(if prover.values.is_open(found) {
                    Some(found)
                } else {
                    None
                });
            }
        }
    }
    Ok(None)
}

/// A comparison of the terms of an equation of ints, over a divisor of their factors that its number has not.
fn half_of(prover: &mut Prover, row: &LinearRow) -> Result<Option<SignedTerm>, SearchStop> {
    let Some(common) = common_denominator(prover, row, row.number.denominator())? else {
        return Ok(None);
    };
    let factors = whole_factors(prover, row, common)?;
    let divisor = divisor_of(&factors)?;
    let number = row.number.times(Rational::whole(common))?.numerator();
    if divisor <= 1 || number.checked_rem(divisor) == Some(0) {
        return Ok(None);
    }
    let mut total = SignedTerm::NONE;
    for (term, by) in &factors {
        let times = by.checked_div(divisor).ok_or(SearchStop::Overflow)?;
        let factor = prover.terms.number(Rational::whole(times), TermKind::Int)?;
        let part = prover
            .terms
            .make(TermOp::Mul, &[factor.literal(), term.literal()])?
            .literal();
        total = if total.is_none() {
            part
        } else {
            prover.terms.make(TermOp::Add, &[total, part])?.literal()
        };
    }
    let limit = number
        .checked_neg()
        .and_then(|it| it.checked_div_euclid(divisor))
        .ok_or(SearchStop::Overflow)?;
    let limit = prover.terms.number(Rational::whole(limit), TermKind::Int)?;
    Ok(Some(prover.terms.at_most(total.term(), limit)?.literal()))
}

// Products, quotients and remainders of what is not known.
ghost use Rattle.std.specs.Prelude.{◌≤◌};

use crate::about::{
    About, all_signs, at_most, equation, look_at_ways, made, one_of, put, ring, times, zero_of,
};
use search_base::{Found, Fuel, SearchStop, SignedTerm, TermId};
use search_rational::Rational;
use search_state::{Factor, Prover};
use search_steps::{StepRule, sum_step};
use search_terms::TermOp;
use search_theory::attach_all;

/// Says what is known of a product, quotient or remainder. Gives back a step that is false.
pub fn product(prover: &mut Prover, n: TermId, fuel: &mut Fuel) -> Found
    ensures { fuel.new.left ≤ fuel.old.left }
{
    let about = about(prover, n, fuel)?;
    if about.look.first().copied() == Some(n) {
        note_factor(prover, n)?;
    }
    for it in &about.look {
        if *it != n {
            prover.look_at(it.literal())?;
        }
    }
    prover.wait_for_sides(n)?;
    attach_all(prover, &about.steps, fuel)
}

/// Notes a product, once.
fn note_factor(prover: &mut Prover, product: TermId) -> Result<(), SearchStop> {
    if !prover
        .products
        .factors
        .iter()
        .any(|it| it.product == product)
    {
        prover.products.factors.push(Factor { product, stage: 0 })?;
    }
    Ok(())
}

fn about(prover: &mut Prover, n: TermId, fuel: &mut Fuel) -> Result<About, SearchStop>
    ensures { fuel.new.left ≤ fuel.old.left }
{
    let op = prover.terms.op(n);
    let (a, b) = (prover.terms.part(n, 0), prover.terms.part(n, 1));
    if let Some(known) = other_constant(prover, b, fuel)? {
        return About::look_at(prover.alloc, prover.terms.make(op, &[a, known])?);
    }
    match op {
        TermOp::Mul => {
            if let Some(known) = other_constant(prover, a, fuel)? {
                return About::look_at(prover.alloc, prover.terms.make(op, &[known, b])?);
            }
            factored(prover, n, a, b)
        }
        TermOp::Div => quotient(prover, n, a, b),
        _ => remainder(prover, a, b, fuel),
    }
}

/// The constant that a term equals, where it is no constant itself.
fn other_constant(
    prover: &mut Prover,
    it: SignedTerm,
    fuel: &mut Fuel,
) -> Result<Option<SignedTerm>, SearchStop>
    ensures { fuel.new.left ≤ fuel.old.left }
{
    prover.register(it, fuel)?;
    Ok(
        prover
            .classes
            .constant(it)
            .filter(|constant| *constant != it),
    )
}

fn quotient(
    prover: &mut Prover,
    n: TermId,
    a: SignedTerm,
    b: SignedTerm,
) -> Result<About, SearchStop> {
    let mut found = About::new(prover.alloc);
    if prover.terms.value(b.term()).is_some() {
        return Ok(found);
    }
    let zero = zero_of(prover, b)?;
    let none = equation(prover, b, zero)?;
    let product = times(prover, n.literal(), b)?;
    let whole = equation(prover, product, a)?;
    let nothing = equation(prover, n.literal(), zero)?;
    put(
        prover,
        &mut found,
        &[none, whole],
        StepRule::Over,
        &[none, whole],
    )?;
    put(
        prover,
        &mut found,
        &[none.negated(), nothing],
        StepRule::Zero,
        &[none, nothing],
    )?;
    found.look.push(none.term())?;
    found.look.push(whole.term())?;
    Ok(found)
}

/// What a quotient and a remainder of ints are, by equations and comparisons.
#[derive(Clone, Copy)]
struct Rest {
    /// The divisor is 0.
    none: SignedTerm,
    /// The divisor times the quotient, with the remainder, is the number.
    whole: SignedTerm,
    /// The divisor is not above 0, and not below.
    above: SignedTerm,
    below: SignedTerm,
    quotient: SignedTerm,
    rest: SignedTerm,
    zero: SignedTerm,
}

fn remainder(
    prover: &mut Prover,
    a: SignedTerm,
    b: SignedTerm,
    fuel: &mut Fuel,
) -> Result<About, SearchStop>
    ensures { fuel.new.left ≤ fuel.old.left }
{
    prover.products.has_rests = true;
    let mut found = About::new(prover.alloc);
    let rest = rest_of(prover, a, b, &mut found)?;
    let value = prover.terms.value(b.term());
    zeros(prover, rest, value, &mut found)?;
    let Some(value) = value else {
        for it in [rest.none, rest.above, rest.below, rest.whole] {
            found.look.push(it.term())?;
        }
        return Ok(found);
    };
    say_sign(prover, rest, value, &mut found, fuel)?;
    found.look.push(rest.whole.term())?;
    Ok(found)
}

/// Says what a remainder is, and how it compares with 0 and the divisor.
fn rest_of(
    prover: &mut Prover,
    a: SignedTerm,
    b: SignedTerm,
    about: &mut About,
) -> Result<Rest, SearchStop> {
    let zero = zero_of(prover, b)?;
    let none = equation(prover, b, zero)?;
    let (quotient, rest) = (
        made(prover, TermOp::IntDiv, a, b)?,
        made(prover, TermOp::Mod, a, b)?,
    );
    let product = times(prover, b, quotient)?;
    let sum = made(prover, TermOp::Add, product, rest)?;
    let whole = equation(prover, sum, a)?;
    let low = at_most(prover, zero, rest)?;
    let (above, below) = (at_most(prover, b, zero)?, at_most(prover, zero, b)?);
    let found = Rest {
        none,
        whole,
        above,
        below,
        quotient,
        rest,
        zero,
    };
    let words = [none, whole];
    put(prover, about, &words, StepRule::Over, &words)?;
    put(prover, about, &[low], StepRule::Rest, &[low])?;
    say_below(prover, b, found, about)?;
    Ok(found)
}

/// Says that a remainder is below a divisor that is above 0, and below the negation of one that is below 0.
fn say_below(
    prover: &mut Prover,
    b: SignedTerm,
    it: Rest,
    about: &mut About,
) -> Result<(), SearchStop> {
    let minus = prover.terms.make(TermOp::Neg, &[b])?.literal();
    let first = at_most(prover, b, it.rest)?;
    let second = at_most(prover, minus, it.rest)?;
    for (side, other) in [(it.above, first), (it.below, second)] {
        put(
            prover,
            about,
            &[side, other.negated()],
            StepRule::Below,
            &[side, other],
        )?;
    }
    Ok(())
}

/// Says what the quotient and the remainder are where the divisor is 0, if it may be.
fn zeros(
    prover: &mut Prover,
    rest: Rest,
    value: Option<Rational>,
    about: &mut About,
) -> Result<(), SearchStop> {
    let nothing = [
        equation(prover, rest.quotient, rest.zero)?,
        equation(prover, rest.rest, rest.zero)?,
    ];
    if value.map_or(true, |it| it.is_zero()) {
        for it in nothing {
            put(
                prover,
                about,
                &[rest.none.negated(), it],
                StepRule::Zero,
                &[rest.none, it],
            )?;
        }
    }
    Ok(())
}

/// Says how a divisor that is a constant compares with 0.
fn say_sign(
    prover: &mut Prover,
    rest: Rest,
    value: Rational,
    about: &mut About,
    fuel: &mut Fuel,
) -> Result<(), SearchStop>
    ensures { fuel.new.left ≤ fuel.old.left }
{
    if value.is_zero() {
        return say(prover, rest.none, about, fuel);
    }
    say(prover, rest.none.negated(), about, fuel)?;
    let side = if value.is_positive() {
        rest.above
    } else {
        rest.below
    };
    say(prover, side.negated(), about, fuel)
}

/// Says a literal that follows from what its terms are.
pub fn say(
    prover: &mut Prover,
    literal: SignedTerm,
    about: &mut About,
    fuel: &mut Fuel,
) -> Result<(), SearchStop>
    ensures { fuel.new.left ≤ fuel.old.left }
{
    let rows = [(literal, Rational::ONE)];
    about.steps.push(sum_step(prover.alloc, &prover.terms, &mut prover.steps, &rows, fuel)?)?;
    Ok(())
}

fn factored(
    prover: &mut Prover,
    n: TermId,
    a: SignedTerm,
    b: SignedTerm,
) -> Result<About, SearchStop> {
    let mut found = About::new(prover.alloc);
    if !prover.terms.is_own(n) {
        return Ok(found);
    }
    let zero = zero_of(prover, a)?;
    found.look.push(n)?;
    all_signs(
        prover,
        &[(zero, a), (a, zero)],
        &[(zero, b), (b, zero)],
        &mut found,
    )?;
    look_at_ways(
        prover,
        &[(zero, a), (a, zero), (zero, b), (b, zero)],
        &mut found,
    )?;
    turn(prover, n, a, b, &mut found)?;
    spread(prover, n, a, b, &mut found)?;
    Ok(found)
}

/// Says that a product is the one with its factors turned, where that is there, or the second one is a sum.
fn turn(
    prover: &mut Prover,
    n: TermId,
    a: SignedTerm,
    b: SignedTerm,
    about: &mut About,
) -> Result<(), SearchStop> {
    let is_there = prover.terms.find(TermOp::Mul, b, a).is_some();
    if a != b && (is_there || prover.terms.op(b.term()).is_sum()) {
        let turned = times(prover, b, a)?;
        ring(prover, n.literal(), turned, about)?;
        about.look.push(turned.term())?;
    }
    Ok(())
}

/// Says that a product whose first factor is a sum is the sum of the products of its parts.
fn spread(
    prover: &mut Prover,
    n: TermId,
    a: SignedTerm,
    b: SignedTerm,
    about: &mut About,
) -> Result<(), SearchStop> {
    let op = prover.terms.op(a.term());
    if op.is_sum() && prover.terms.value(a.term()).is_none() {
        let (x, y) = (
            prover.terms.part(a.term(), 0),
            prover.terms.part(a.term(), 1),
        );
        let (x, y) = (times(prover, x, b)?, times(prover, y, b)?);
        let sum = made(prover, op, x, y)?;
        ring(prover, n.literal(), sum, about)?;
        about.look.push(x.term())?;
        about.look.push(y.term())?;
    }
    Ok(())
}

/// What follows from comparisons of the factors of a product with 1, where those with 0 were not enough.
pub fn further(prover: &mut Prover, n: TermId) -> Result<About, SearchStop> {
    let (a, b) = (prover.terms.part(n, 0), prover.terms.part(n, 1));
    let (zero, one) = (zero_of(prover, a)?, one_of(prover, a)?);
    let mut found = About::new(prover.alloc);
    for (left, right) in [(zero, one), (one, zero), (one, one)] {
        all_signs(
            prover,
            &[(left, a), (a, left)],
            &[(right, b), (b, right)],
            &mut found,
        )?;
        look_at_ways(
            prover,
            &[(left, a), (a, left), (right, b), (b, right)],
            &mut found,
        )?;
    }
    Ok(found)
}

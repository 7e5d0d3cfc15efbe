// Products of sums as sums of products of terms in one order, so that equal ones are one term.
//
// What is said are the equations of `ring`, each between products and sums of products. That they chain up is seen by the classes of
// terms and by the solved equations, so no proof is put together here.
ghost use Rattle.std.specs.Prelude.{◌≤◌};

use crate::ordering::join;
use crate::polynomials::{MOST_PARTS, Monomial, Polynomial, expand, term_of};
use search_base::{Fuel, SearchStop, SignedTerm, TermId, copied};
use search_products::{About, made, ring, say, times};
use search_rational::Rational;
use search_sides::difference;
use search_state::Prover;
use search_terms::{TermKind, TermOp};

/// Products that stand in products more than so deep are not multiplied out.
const DEEPEST: u32 = 12;

/// A part of a sum: its term, and the product that it is with a factor.
#[derive(Drop)]
struct Part {
    term: SignedTerm,
    monomial: Monomial,
}

/// The equations by which a product is a sum of products in one order.
pub fn multiplied_out(prover: &mut Prover, n: TermId, fuel: &mut Fuel) -> Result<About, SearchStop>
    ensures { fuel.new.left ≤ fuel.old.left }
{
    let (a, b) = (prover.terms.part(n, 0), prover.terms.part(n, 1));
    let mut found = About::new(prover.alloc);
    let one = expand(prover, a.term(), DEEPEST, &mut found, fuel)?;
    let two = expand(prover, b.term(), DEEPEST, &mut found, fuel)?;
    if let (Some(one), Some(two)) = (&one, &two) {
        if one.len().saturating_mul(two.len()) <= MOST_PARTS {
            multiply(prover, n, one, two, &mut found, fuel)?;
            return Ok(found);
        }
    }
    Ok(About::new(prover.alloc))
}

/// The parts of a sum, each a factor and a product, as terms.
fn parts_of(
    prover: &mut Prover,
    sum: &Polynomial,
    kind: TermKind,
) -> Result<Vec<Part>, SearchStop> {
    let mut found = Vec::new(prover.alloc);
    for (monomial, by) in sum {
        let factor = prover.terms.number(*by, kind)?.literal();
        let product = term_of(prover, monomial)?;
        let term = if product.is_none() {
            factor
        } else if *by == Rational::ONE {
            product
        } else {
            times(prover, factor, product)?
        };
        let monomial = copied(prover.alloc, monomial)?;
        found.push(Part { term, monomial })?;
    }
    if found.is_empty() {
        let term = prover.terms.number(Rational::ZERO, kind)?.literal();
        let monomial = Vec::new(prover.alloc);
        found.push(Part { term, monomial })?;
    }
    Ok(found)
}

fn sum_of(prover: &mut Prover, parts: &[Part]) -> Result<SignedTerm, SearchStop> {
    let mut found = SignedTerm::NONE;
    for part in parts {
        found = if found.is_none() {
            part.term
        } else {
            made(prover, TermOp::Add, found, part.term)?
        };
    }
    Ok(found)
}

/// Says that a product is the product of these two sums, and what that comes to.
fn multiply(
    prover: &mut Prover,
    n: TermId,
    one: &Polynomial,
    two: &Polynomial,
    about: &mut About,
    fuel: &mut Fuel,
) -> Result<(), SearchStop>
    ensures { fuel.new.left ≤ fuel.old.left }
{
    let kind = prover.terms.kind(n.literal());
    let ones = parts_of(prover, one, kind)?;
    let twos = parts_of(prover, two, kind)?;
    multiply_parts(prover, n, &ones, &twos, about, fuel)
}

/// Says the same of the parts of the sums.
fn multiply_parts(
    prover: &mut Prover,
    n: TermId,
    ones: &[Part],
    twos: &[Part],
    about: &mut About,
    fuel: &mut Fuel,
) -> Result<(), SearchStop>
    ensures { fuel.new.left ≤ fuel.old.left }
{
    let (a, b) = (prover.terms.part(n, 0), prover.terms.part(n, 1));
    let (left, right) = (sum_of(prover, ones)?, sum_of(prover, twos)?);
    say_equal(prover, a, left, about, fuel)?;
    say_equal(prover, b, right, about, fuel)?;
    let whole = times(prover, left, right)?;
    prover.register(whole, fuel)?;
    prover.register(n.literal(), fuel)?;
    spread(prover, ones, right, about)?;
    for part in ones {
        let product = term_of(prover, &part.monomial)?;
        if !product.is_none() {
            multiply_one(prover, n, part, (product, right), twos, about, fuel)?;
        }
    }
    Ok(())
}

/// Says what a product in order, the part of a sum, comes to times another sum.
fn multiply_one(
    prover: &mut Prover,
    n: TermId,
    one: &Part,
    factors: (SignedTerm, SignedTerm),
    twos: &[Part],
    about: &mut About,
    fuel: &mut Fuel,
) -> Result<(), SearchStop>
    ensures { fuel.new.left ≤ fuel.old.left }
{
    let (product, right) = factors;
    let (ours, theirs) = (
        times(prover, product, right)?,
        times(prover, right, product)?,
    );
    if ours != theirs {
        ring(prover, ours, theirs, about)?;
    }
    spread(prover, twos, product, about)?;
    for other in twos {
        let whole = join(prover, &other.monomial, &one.monomial, about, fuel)?;
        let whole = term_of(prover, &whole)?.term();
        if prover.terms.op(whole) == TermOp::Mul && whole != n {
            about.look.push(whole)?;
        }
    }
    Ok(())
}

/// Says that a number is what it comes to, or has it looked at whether it is.
fn say_equal(
    prover: &mut Prover,
    a: SignedTerm,
    b: SignedTerm,
    about: &mut About,
    fuel: &mut Fuel,
) -> Result<(), SearchStop>
    ensures { fuel.new.left ≤ fuel.old.left }
{
    if a == b {
        return Ok(());
    }
    let equation = prover.terms.equation(a, b)?.literal();
    let row = difference(prover, a, b, fuel)?;
    if row.terms.is_empty() && row.number.is_zero() {
        return say(prover, equation, about, fuel);
    }
    prover.register(a, fuel)?;
    prover.register(b, fuel)?;
    prover.probe_later(equation)
}

/// Says that a sum times a term is the sum of its parts times the term.
fn spread(
    prover: &mut Prover,
    parts: &[Part],
    by: SignedTerm,
    about: &mut About,
) -> Result<(), SearchStop> {
    let mut sum = SignedTerm::NONE;
    for part in parts {
        let product = times(prover, part.term, by)?;
        take_factor(prover, part, by, product, about)?;
        if sum.is_none() {
            sum = part.term;
        } else {
            let whole = made(prover, TermOp::Add, sum, part.term)?;
            let first = times(prover, sum, by)?;
            let left = times(prover, whole, by)?;
            let right = made(prover, TermOp::Add, first, product)?;
            ring(prover, left, right, about)?;
            sum = whole;
        }
    }
    Ok(())
}

/// Says that a part with a factor, times a term, is the factor times the product with the term.
fn take_factor(
    prover: &mut Prover,
    part: &Part,
    by: SignedTerm,
    product: SignedTerm,
    about: &mut About,
) -> Result<(), SearchStop> {
    let own = term_of(prover, &part.monomial)?;
    if !own.is_none() && own != part.term {
        let inner = times(prover, own, by)?;
        let factor = prover.terms.part(part.term.term(), 0);
        let outer = times(prover, factor, inner)?;
        ring(prover, product, outer, about)?;
    }
    Ok(())
}

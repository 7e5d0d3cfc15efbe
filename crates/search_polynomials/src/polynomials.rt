// Numbers as sums of products of terms in one order.
ghost use Rattle.std.specs.Prelude.{◌≤◌};

use search_base::{Fuel, SearchStop, SignedTerm, TermId, copied};
use search_products::{About, ring, times};
use search_rational::Rational;
use search_state::Prover;
use search_terms::{TermKind, TermOp};
use std::alloc::Global;
use std::collections::BTreeMap;

/// More parts, or factors in one of them, are not multiplied out.
pub(crate) const MOST_PARTS: usize = 40;

const MOST_FACTORS: usize = 6;

/// Terms that are no sums and no products, rising.
pub(crate) type Monomial = Vec<TermId>;

/// A sum of products, each with a factor.
pub(crate) type Polynomial = BTreeMap<Monomial, Rational>;

/// Adds so many times a product to a sum.
fn put(sum: &mut Polynomial, monomial: Monomial, by: Rational) -> Result<(), SearchStop> {
    let now = sum.get(&monomial).copied().unwrap_or_default().plus(by)?;
    if now.is_zero() {
        sum.remove(&monomial);
    } else {
        sum.insert(monomial, now)?;
    }
    Ok(())
}

/// The terms of two products, rising.
pub(crate) fn merged(
    alloc: Global,
    one: &[TermId],
    two: &[TermId],
) -> Result<Monomial, SearchStop> {
    let mut found = copied(alloc, one)?;
    found.extend_from_slice(two)?;
    found.sort_unstable();
    Ok(found)
}

/// The sum of one product.
fn alone(alloc: Global, monomial: Monomial) -> Result<Polynomial, SearchStop> {
    let mut sum = BTreeMap::new(alloc);
    sum.insert(monomial, Rational::ONE)?;
    Ok(sum)
}

/// A number as a polynomial; None where it is too long, or products stand in products more than so deep. The equations for products of
/// ints that are taken as reals are put to `about`.
#[cycle(polynomials)]
pub(crate) fn expand(
    prover: &mut Prover,
    n: TermId,
    depth: u32,
    about: &mut About,
    fuel: &mut Fuel,
) -> Result<Option<Polynomial>, SearchStop>
    ensures { fuel.new.left ≤ fuel.old.left }
{
    if depth == 0 {
        return Ok(None);
    }
    let is_real = prover.terms.kind(n.literal()) == TermKind::Real;
    let alloc = prover.alloc;
    let form = copied(alloc, prover.terms.form(n, fuel)?)?;
    let mut sum = BTreeMap::new(alloc);
    for (leaf, by) in &form {
        let Some(part) = expand_leaf(prover, *leaf, is_real, depth - 1, about, fuel)? else {
            return Ok(None);
        };
        add(&mut sum, part, *by)?;
    }
    Ok(if sum.len() > MOST_PARTS {
        None
    } else {
        Some(sum)
    })
}

/// Adds so many times a polynomial to another one.
fn add(sum: &mut Polynomial, part: Polynomial, by: Rational) -> Result<(), SearchStop> {
    for (monomial, factor) in part {
        put(sum, monomial, factor.times(by)?)?;
    }
    Ok(())
}

/// A term that is no sum as a polynomial, as a real where that is wanted.
#[cycle(polynomials)]
fn expand_leaf(
    prover: &mut Prover,
    leaf: TermId,
    is_real: bool,
    depth: u32,
    about: &mut About,
    fuel: &mut Fuel,
) -> Result<Option<Polynomial>, SearchStop>
    ensures { fuel.new.left ≤ fuel.old.left }
{
    if leaf.is_none() {
        return Ok(Some(alone(prover.alloc, Vec::new(prover.alloc))?));
    }
    let is_turned = is_real && prover.terms.kind(leaf.literal()) == TermKind::Int;
    if prover.terms.op(leaf) != TermOp::Mul {
        let atom = if is_turned {
            to_real(prover, leaf.literal())?.term()
        } else {
            leaf
        };
        return Ok(Some(alone(prover.alloc, vec![in prover.alloc; atom]?)?));
    }
    let (a, b) = factors(prover, leaf, is_turned, about)?;
    let one = expand(prover, a.term(), depth, about, fuel)?;
    let two = expand(prover, b.term(), depth, about, fuel)?;
    match (&one, &two) {
        (Some(one), Some(two)) => product_of(prover.alloc, one, two),
        _ => Ok(None),
    }
}

/// The factors of a product, as reals where that is wanted.
fn factors(
    prover: &mut Prover,
    n: TermId,
    is_turned: bool,
    about: &mut About,
) -> Result<(SignedTerm, SignedTerm), SearchStop> {
    let (a, b) = (prover.terms.part(n, 0), prover.terms.part(n, 1));
    if !is_turned {
        return Ok((a, b));
    }
    let whole = to_real(prover, n.literal())?;
    let (a, b) = (to_real(prover, a)?, to_real(prover, b)?);
    let product = times(prover, a, b)?;
    ring(prover, whole, product, about)?;
    Ok((a, b))
}

fn to_real(prover: &mut Prover, it: SignedTerm) -> Result<SignedTerm, SearchStop> {
    Ok(prover.terms.make(TermOp::ToReal, &[it])?.literal())
}

fn product_of(
    alloc: Global,
    one: &Polynomial,
    two: &Polynomial,
) -> Result<Option<Polynomial>, SearchStop> {
    let mut sum = BTreeMap::new(alloc);
    if one.len().saturating_mul(two.len()) > MOST_PARTS {
        return Ok(None);
    }
    for (left, by) in one {
        for (right, factor) in two {
            if left.len().saturating_add(right.len()) > MOST_FACTORS {
                return Ok(None);
            }
            put(&mut sum, merged(alloc, left, right)?, by.times(*factor)?)?;
        }
    }
    Ok(Some(sum))
}

/// The term of a product; none where it has no factors.
pub(crate) fn term_of(prover: &mut Prover, monomial: &[TermId]) -> Result<SignedTerm, SearchStop> {
    let mut found = SignedTerm::NONE;
    for atom in monomial {
        found = if found.is_none() {
            atom.literal()
        } else {
            times(prover, found, atom.literal())?
        };
    }
    Ok(found)
}

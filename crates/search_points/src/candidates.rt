// Values to try for a factor or a divisor.
use search_base::{SearchStop, TermId};
use search_rational::Rational;
use search_state::Prover;
use search_terms::TermKind;

/// Of a product below this one the divisors are tried.
const END_OF_PRODUCTS: u128 = 1 << 40;

/// The greatest divisor that is tried, besides those that it leaves.
const MOST_DIVISOR: u64 = 1_000;

/// So far from the value that a whole number has, and so far from 0, all are tried.
const NEAR_VALUE: u32 = 5;

const NEAR_ZERO: u32 = 10;

/// The fractions that are tried.
const FRACTIONS: [(i128, i128); 18] = [
    (0, 1),
    (1, 1),
    (1, 2),
    (1, 4),
    (1, 3),
    (2, 3),
    (2, 1),
    (-1, 1),
    (1, 8),
    (3, 4),
    (3, 1),
    (4, 1),
    (5, 1),
    (6, 1),
    (7, 1),
    (8, 1),
    (9, 1),
    (10, 1),
];

/// The values to try for a number that is a factor or a divisor: what it is, divisors of what a product is to be, its root, what is near,
/// and small ones.
pub(crate) fn candidates(
    prover: &Prover,
    n: TermId,
    value: Rational,
    product: Rational,
    is_square: bool,
) -> Result<Vec<Rational>, SearchStop> {
    let mut found = Vec::new(prover.alloc);
    put(&mut found, value)?;
    if prover.terms.kind(n.literal()) != TermKind::Int {
        for (above, below) in FRACTIONS {
            put(&mut found, Rational::new(above, below)?)?;
        }
        return Ok(found);
    }
    if product.is_whole() && !product.is_zero() {
        put_divisors(&mut found, product, is_square)?;
    }
    if is_square && product.is_whole() && product.is_positive() {
        put_both(&mut found, root(product.numerator()))?;
    }
    put_near(&mut found, value)?;
    Ok(found)
}

/// Puts a value that is not there yet.
fn put(found: &mut Vec<Rational>, value: Rational) -> Result<(), SearchStop> {
    if !found.contains(&value) {
        found.push(value)?;
    }
    Ok(())
}

/// Puts a whole number, and the one with the other sign.
fn put_both(found: &mut Vec<Rational>, value: i128) -> Result<(), SearchStop> {
    let one = Rational::whole(value);
    put(found, one)?;
    put(found, one.negated()?)
}

/// Puts divisors of a number.
fn put_divisors(
    found: &mut Vec<Rational>,
    product: Rational,
    is_square: bool,
) -> Result<(), SearchStop> {
    let size = product.numerator().unsigned_abs();
    if size >= END_OF_PRODUCTS {
        return Ok(());
    }
    let size = size as u64;
    for by in 1..=MOST_DIVISOR {
        let square = by.saturating_mul(by);
        if square > size {
            break;
        }
        let is_divisor = size.checked_rem(by) == Some(0);
        if is_divisor && (!is_square || square == size) {
            put_both(found, i128::from(size.checked_div(by).unwrap_or(0)))?;
            put_both(found, i128::from(by))?;
        }
    }
    Ok(())
}

/// Puts whole numbers that are near to one, and those that are near to 0.
fn put_near(found: &mut Vec<Rational>, value: Rational) -> Result<(), SearchStop> {
    for it in 1..=NEAR_VALUE {
        let far = Rational::whole(i128::from(it));
        put(found, value.plus(far)?)?;
        put(found, value.minus(far)?)?;
    }
    for it in 0..=NEAR_ZERO {
        put_both(found, i128::from(it))?;
    }
    Ok(())
}

/// The whole root of a number above 0, where it is at most 2^62.
fn root(of: i128) -> i128 {
    let (mut low, mut high) = (0i128, 1i128 << 62);
    for _ in 0..64 {
        if low >= high {
            break;
        }
        let middle = low.wrapping_add(high.wrapping_sub(low).wrapping_add(1) / 2);
        let is_above = match middle.checked_mul(middle) {
            Some(square) => square > of,
            None => true,
        };
        if is_above {
            high = middle.wrapping_sub(1);
        } else {
            low = middle;
        }
    }
    low
}

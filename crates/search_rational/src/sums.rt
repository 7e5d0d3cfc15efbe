// Sums of things with factors.
use crate::rational::Rational;
use search_base::SearchStop;
use std::alloc::Global;

/// Puts a thing with its factor behind a sum, unless the factor is 0.
fn put<K: Copy + Drop>(
    sum: &mut Vec<(K, Rational)>,
    thing: K,
    factor: Rational,
) -> Result<(), SearchStop> {
    if !factor.is_zero() {
        sum.push((thing, factor))?;
    }
    Ok(())
}

/// A sum, and so many times another one. In a sum things rise, each stands once, and no factor is 0.
pub fn added<K: Copy + Ord + Drop>(
    alloc: Global,
    one: &[(K, Rational)],
    two: &[(K, Rational)],
    by: Rational,
) -> Result<Vec<(K, Rational)>, SearchStop> {
    let most = one.len().saturating_add(two.len());
    let mut found = Vec::with_capacity(alloc, most)?;
    let (mut left, mut right) = (one, two);
    for _ in 0..most {
        match (left, right) {
            ([], []) => break,
            ([a, rest @ ..], [b, others @ ..]) if a.0 == b.0 => {
                put(&mut found, a.0, a.1.plus(b.1.times(by)?)?)?;
                left = rest;
                right = others;
            }
            ([a, rest @ ..], [b, ..]) if a.0 < b.0 => {
                found.push(*a)?;
                left = rest;
            }
            ([a, rest @ ..], []) => {
                found.push(*a)?;
                left = rest;
            }
            (_, [b, others @ ..]) => {
                put(&mut found, b.0, b.1.times(by)?)?;
                right = others;
            }
        }
    }
    Ok(found)
}

// Products that share a factor: which is less follows from their other factors, and from the sign of the one that they share.
use crate::about::{About, Way, at_most, made, one_of, ring, signs, times, zero_of};
use search_base::{SearchStop, SignedTerm, TermId};
use search_state::Prover;
use search_terms::{TermKind, TermOp};

/// So many products are taken together with another one.
const MOST_PAIRS: usize = 6;

/// The places of the factors of two products.
const PLACES: [(usize, usize); 4] = [(0, 0), (0, 1), (1, 0), (1, 1)];

/// A factor of a product, and the other one.
#[derive(Clone, Copy)]
struct Split {
    product: TermId,
    place: usize,
    shared: SignedTerm,
    other: SignedTerm,
}

fn split_at(prover: &Prover, product: TermId, place: usize) -> Split {
    let other = if place == 0 { 1 } else { 0 };
    Split {
        product,
        place,
        shared: prover.terms.part(product, place),
        other: prover.terms.part(product, other),
    }
}

/// What follows of a product and those before it that share a factor with it.
pub fn together(prover: &mut Prover, n: TermId) -> Result<About, SearchStop> {
    let mut found = About::new(prover.alloc);
    let mut pairs: usize = 0;
    for at in 0..prover.products.factors.len() {
        let other = match prover.products.factors.get(at) {
            Some(it) if it.product < n && prover.classes.has(it.product.literal()) => it.product,
            _ => continue,
        };
        for (i, j) in &PLACES {
            let (one, two) = (split_at(prover, n, *i), split_at(prover, other, *j));
            let is_shared = prover.classes.has(one.shared)
                && prover.classes.are_same(one.shared, two.shared);
            if is_shared && pairs < MOST_PAIRS {
                pairs += 1;
                compare_others(prover, one, two, &mut found)?;
            }
        }
    }
    Ok(found)
}

/// Says what follows of two products that share a factor from their other ones.
fn compare_others(
    prover: &mut Prover,
    one: Split,
    two: Split,
    about: &mut About,
) -> Result<(), SearchStop> {
    let (x, y, shared) = (one.other, two.other, one.shared);
    if prover.classes.are_same(x, y) {
        return Ok(());
    }
    turn(prover, one, about)?;
    turn(prover, two, about)?;
    let (zero, step) = (zero_of(prover, shared)?, one_of(prover, shared)?);
    let mut ways = vec![in prover.alloc; (x, y), (y, x)]?;
    if is_whole(prover, x) && is_whole(prover, y) {
        ways.push((next(prover, x, shared, step, about)?, y))?;
        ways.push((next(prover, y, shared, step, about)?, x))?;
    }
    compare_all(prover, &ways, (zero, shared), about)
}

/// Says what follows from ways in which factors compare, and from the sign of the factor that is shared.
fn compare_all(
    prover: &mut Prover,
    ways: &[Way],
    sign: Way,
    about: &mut About,
) -> Result<(), SearchStop> {
    for way in ways {
        signs(prover, *way, sign, about)?;
        about.look.push(at_most(prover, way.0, way.1)?.term())?;
        about.look.push(at_most(prover, sign.0, sign.1)?.term())?;
    }
    Ok(())
}

/// A whole factor with 1 added, and that its product is the sum of two.
fn next(
    prover: &mut Prover,
    less: SignedTerm,
    shared: SignedTerm,
    step: SignedTerm,
    about: &mut About,
) -> Result<SignedTerm, SearchStop> {
    let next = made(prover, TermOp::Add, less, step)?;
    let product = times(prover, next, shared)?;
    let (left, right) = (times(prover, less, shared)?, times(prover, step, shared)?);
    let sum = made(prover, TermOp::Add, left, right)?;
    ring(prover, product, sum, about)?;
    Ok(next)
}

fn is_whole(prover: &Prover, it: SignedTerm) -> bool {
    prover.terms.kind(it) == TermKind::Int || prover.terms.op(it.term()) == TermOp::ToReal
}

/// Says that a product is the one with the factor that is shared behind.
fn turn(prover: &mut Prover, one: Split, about: &mut About) -> Result<(), SearchStop> {
    if one.place == 0 {
        let turned = times(prover, one.other, one.shared)?;
        if turned != one.product.literal() {
            ring(prover, one.product.literal(), turned, about)?;
        }
    }
    Ok(())
}

// Products with a factor that equals a sum: the product with the sum in its place, which can be multiplied out.
use search_base::{SearchStop, SignedTerm, TermId};
use search_state::Prover;
use search_terms::TermOp;

/// So many products are made of others in this way.
const MOST_SWAPS: usize = 40;

/// A product that was not there, of a product and a sum that one of its factors equals by what is assigned.
pub fn swapped(prover: &mut Prover) -> Result<Option<TermId>, SearchStop> {
    for at in 0..prover.products.factors.len() {
        let product = match prover.products.factors.get(at) {
            Some(it) if prover.classes.has(it.product.literal()) => it.product,
            _ => continue,
        };
        for place in 0..2 {
            let found = swapped_at(prover, product, place)?;
            if found.is_some() {
                return Ok(found);
            }
        }
    }
    Ok(None)
}

/// The product with a sum in place of a factor that equals it, where that was not made.
fn swapped_at(
    prover: &mut Prover,
    product: TermId,
    place: usize,
) -> Result<Option<TermId>, SearchStop> {
    let factor = prover.terms.part(product, place);
    let Some(sum) = sum_for(prover, factor) else {
        return Ok(None);
    };
    if prover.products.swaps.len() >= MOST_SWAPS
        || !prover.products.swaps.insert((product, place, sum))?
    {
        return Ok(None);
    }
    let parts = if place == 0 {
        [sum, prover.terms.part(product, 1)]
    } else {
        [prover.terms.part(product, 0), sum]
    };
    Ok(Some(prover.terms.make(TermOp::Mul, &parts)?))
}

/// A sum that equals a term, which is none and no constant.
fn sum_for(prover: &Prover, it: SignedTerm) -> Option<SignedTerm> {
    if prover.terms.op(it.term()).is_sum()
        || !prover.classes.has(it)
        || prover.classes.constant(it).is_some()
    {
        return None;
    }
    prover
        .classes
        .members(it)
        .iter()
        .copied()
        .find(|other| prover.terms.op(other.term()).is_sum())
}

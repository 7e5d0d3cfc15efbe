// What terms are applied to.
use search_base::{SearchStop, SignedTerm};
use search_terms::{TermOp, Terms};
use std::alloc::Global;
use std::ops::Range;

/// The places of the parts that a term is applied to: none where equal parts do not make equal wholes. The map of a place is none.
pub(crate) fn arguments_at(terms: &Terms, it: SignedTerm) -> Range<usize> {
    let op = terms.op(it.term());
    if !it.is_plain() || !op.is_applied() {
        return 0..0;
    }
    let first = if op == TermOp::At { 1 } else { 0 };
    first..terms.arity(it.term())
}

/// What a term is applied to.
pub fn arguments(
    alloc: Global,
    terms: &Terms,
    it: SignedTerm,
) -> Result<Vec<SignedTerm>, SearchStop> {
    let mut found = Vec::new(alloc);
    for k in arguments_at(terms, it) {
        found.push(terms.part(it.term(), k))?;
    }
    Ok(found)
}
